//! What stands where a call fails: docs/profile.md, "station", "trial", "send", "play and show" and "statuses".

use crate::failing_calls::Command;
use crate::receivers::ABC_TABLE;
use crate::runs::Object;
use crate::sessions::HELLO_LINE;
use crate::trials::ANSWERS;
use station::Status;

/// What the call is; the status; what is printed; how many bytes are said, and how often something is heard, of the run in which
/// nothing fails; and how many bytes of that run's air the file has, or none where it is as it was.
pub(crate) type Case = (
    &'static str,
    Status,
    &'static [u8],
    usize,
    usize,
    Option<usize>,
);

/// The calls of an object, in their order.
type Calls = (Object, &'static [Case]);

/// The line of a session whose line fails before its block.
const LOST: &[u8] =
    b"session 1 lost pages 0 continued 0 nak 0 body 0 content 0 form 0 unknown 0 text 0 room 0 wrong 0\n";

/// The line of a session whose line fails after its block.
const LOST_WITH_PAGE: &[u8] =
    b"session 1 lost pages 1 continued 0 nak 0 body 0 content 0 form 0 unknown 0 text 0 room 0 wrong 0\n";

/// A session whose line fails is lost, unless End is decided by then. Its page is sent once the Ack is decided.
pub(crate) const STATION_CALLS: &[Calls] = &[
    (
        Object::Shelf,
        &[
            (
                "the read of the settings",
                Status::FileFault,
                b"",
                0,
                0,
                None,
            ),
            (
                "the read at the end of the settings",
                Status::FileFault,
                b"",
                0,
                0,
                None,
            ),
            (
                "the making of the air file",
                Status::FileFault,
                b"",
                0,
                0,
                None,
            ),
            (
                "the append of the preamble",
                Status::FileFault,
                b"",
                14,
                2,
                Some(0),
            ),
            (
                "the append of the batch",
                Status::FileFault,
                b"",
                14,
                2,
                Some(72),
            ),
        ],
    ),
    (
        Object::Wire,
        &[
            ("listen", Status::WireFault, b"", 0, 0, Some(0)),
            ("next", Status::WireFault, b"", 0, 0, Some(0)),
            ("the first hear", Status::Done, LOST, 0, 0, Some(0)),
            ("the say of Id", Status::Done, LOST, 0, 1, Some(0)),
            ("the say of Go", Status::Done, LOST, 3, 1, Some(0)),
            (
                "the say of the Ack",
                Status::Done,
                LOST_WITH_PAGE,
                9,
                1,
                Some(140),
            ),
            (
                "the hear after the block",
                Status::Done,
                LOST_WITH_PAGE,
                11,
                1,
                Some(140),
            ),
            ("the say of End", Status::Done, HELLO_LINE, 11, 2, Some(140)),
            ("the hang-up", Status::Done, HELLO_LINE, 14, 2, Some(140)),
        ],
    ),
    (Object::Input, &[]),
];

/// The noise is read once, since it is as long as the transmission.
pub(crate) const TRIAL_CALLS: &[Calls] = &[
    (
        Object::Shelf,
        &[
            (
                "the read of the settings",
                Status::FileFault,
                b"",
                0,
                0,
                None,
            ),
            (
                "the read at the end of the settings",
                Status::FileFault,
                b"",
                0,
                0,
                None,
            ),
            (
                "the read of the noise",
                Status::FileFault,
                ANSWERS,
                0,
                0,
                None,
            ),
        ],
    ),
    (
        Object::Input,
        &[
            ("the first take", Status::InputFault, b"", 0, 0, None),
            (
                "the take within the block",
                Status::InputFault,
                b"ID\nGO\n",
                0,
                0,
                None,
            ),
            (
                "the take after the block",
                Status::InputFault,
                b"ID\nGO\nACK\n",
                0,
                0,
                None,
            ),
        ],
    ),
    (Object::Wire, &[]),
];

const NO_LOGON: &[u8] = b"1 no-logon\n2 no-logon\n";

const DISCONNECTED: &[u8] = b"1 disconnected\n2 disconnected\n";

const ONE_SENT: &[u8] = b"1 sent\n2 disconnected\n";

const DECIDED: &[u8] = b"1 sent\n2 abandoned\n";

/// The outcomes are those of the marks that were heard.
pub(crate) const SEND_CALLS: &[Calls] = &[
    (
        Object::Shelf,
        &[
            ("the read of the pages", Status::FileFault, b"", 0, 0, None),
            (
                "the read at the end of the pages",
                Status::FileFault,
                b"",
                0,
                0,
                None,
            ),
        ],
    ),
    (
        Object::Wire,
        &[
            ("dial", Status::WireFault, NO_LOGON, 0, 0, None),
            ("the say of CR", Status::WireFault, NO_LOGON, 0, 0, None),
            ("the hear of Id", Status::WireFault, NO_LOGON, 1, 0, None),
            (
                "the say of the logon line",
                Status::WireFault,
                NO_LOGON,
                1,
                1,
                None,
            ),
            (
                "the hear before Go",
                Status::WireFault,
                NO_LOGON,
                6,
                1,
                None,
            ),
            ("the hear of Go", Status::WireFault, NO_LOGON, 6, 2, None),
            (
                "the say of the first block",
                Status::WireFault,
                DISCONNECTED,
                6,
                3,
                None,
            ),
            (
                "the hear of the Ack",
                Status::WireFault,
                DISCONNECTED,
                26,
                3,
                None,
            ),
            (
                "the say of the second block",
                Status::WireFault,
                ONE_SENT,
                26,
                4,
                None,
            ),
            (
                "the hear of the Rs",
                Status::WireFault,
                ONE_SENT,
                38,
                4,
                None,
            ),
            (
                "the say of goodbye",
                Status::WireFault,
                DECIDED,
                38,
                5,
                None,
            ),
            ("the hear of End", Status::WireFault, DECIDED, 40, 5, None),
            ("the hang-up", Status::WireFault, DECIDED, 40, 6, None),
        ],
    ),
    (Object::Input, &[]),
];

/// The whole file is read before the read at its end.
pub(crate) const SHOW_CALLS: &[Calls] = &[
    (
        Object::Shelf,
        &[
            ("the read of the file", Status::FileFault, b"", 0, 0, None),
            (
                "the read at the end of the file",
                Status::FileFault,
                ABC_TABLE,
                0,
                0,
                None,
            ),
        ],
    ),
    (Object::Wire, &[]),
    (Object::Input, &[]),
];

/// How many pieces each run puts to the output, and how many lines about its status. A line of a page is put in two pieces, the
/// receiver's number and the rest. Only some pages of the client are sent, which is a status with a line.
pub(crate) const PUTS: &[(Command, u64, u64)] = &[
    (Command::Station, 1, 0),
    (Command::Trial, 7, 0),
    (Command::Send, 2, 1),
    (Command::Show, 17, 0),
];
