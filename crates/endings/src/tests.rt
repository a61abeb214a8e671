//! The codes of statuses.

use crate::statuses::Status;

/// Each status with its code.
const CODES: [(Status, u8); 15] = [
    (Status::Done, 0),
    (Status::Usage, 2),
    (Status::Settings, 3),
    (Status::FileFault, 4),
    (Status::WireFault, 5),
    (Status::OutFault, 6),
    (Status::InputFault, 7),
    (Status::NotBlock, 8),
    (Status::BadSum, 9),
    (Status::BadText, 10),
    (Status::TooLong, 11),
    (Status::LogonRefused, 12),
    (Status::SomeUnsent, 13),
    (Status::Memory, 14),
    (Status::BadPages, 15),
];

#[test]
fn codes_of_statuses(rt: HostRuntime) {
    for (status, code) in CODES {
        assert_eq!(rt; status.code(), code, "{status:?}");
    }
}
