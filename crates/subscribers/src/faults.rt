//! Why a settings file is refused.

/// Why a settings file is refused, by the rule "settings". The numbers count the entries of `subscriber`, or those
/// of `group`, from 1.
#[derive(Clone, Copy, Debug, PartialEq, Eq)]
pub enum SettingsFault {
    /// There are more than 1,048,576 bytes.
    Long,
    /// The bytes are no TOML document.
    NotToml,
    /// The version is an integer other than 1 and 2.
    Version,
    /// A required key is missing, a key has no meaning in this version, or a value is of another kind.
    Form,
    /// The password isn't six characters from 0x21 to 0x7E.
    Password,
    /// The number of cells is below 1 or above 65,536.
    Cells,
    /// There are more than 10,000 subscribers or more than 1,000 groups.
    TooMany,
    /// The id of this entry isn't 1 to 10 digits.
    Id(u32),
    /// The id of this entry is that of an earlier one.
    IdTwice(u32),
    /// The capcode of this entry isn't usable.
    Capcode(u32),
    /// The class of this entry is none of the four.
    Class(u32),
    /// The id of this group isn't 1 to 10 digits.
    GroupId(u32),
    /// The id of this group is that of a subscriber or of an earlier group.
    GroupIdTwice(u32),
    /// The capcodes of this group aren't 1 to 16 usable ones that differ.
    GroupMembers(u32),
    /// The class of this group is none of the four.
    GroupClass(u32),
    /// There was no memory.
    Memory,
}
