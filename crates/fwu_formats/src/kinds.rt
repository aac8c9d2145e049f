use thiserror::Error;

/// What is known of a bank.
#[derive(Clone, Copy, Debug, PartialEq, Eq)]
pub enum BankState {
    Invalid,
    Valid,
    Accepted,
}

impl BankState {
    ghost use Rattle.std.specs.Prelude.{◌≡◌};
    ghost use Rattle.fwu_formats.specs.States.{is_invalid, is_valid, is_accepted};

    /// Whether the bank is not to be started.
    pub fn is_invalid(self) -> bool
        ensures { result ≡ is_invalid self }
    {
        match self {
            BankState::Invalid => true,
            BankState::Valid | BankState::Accepted => false,
        }
    }

    /// Whether the bank is on trial.
    pub fn is_valid(self) -> bool
        ensures { result ≡ is_valid self }
    {
        match self {
            BankState::Valid => true,
            BankState::Invalid | BankState::Accepted => false,
        }
    }

    /// Whether the bank is known to work.
    pub fn is_accepted(self) -> bool
        ensures { result ≡ is_accepted self }
    {
        match self {
            BankState::Accepted => true,
            BankState::Invalid | BankState::Valid => false,
        }
    }
}

/// Why a block is no layout, the first fault.
#[derive(Clone, Copy, Debug, PartialEq, Eq, Error)]
pub enum LayoutFault {
    #[error("shorter than a layout")]
    Short,
    #[error("without a layout's magic number")]
    BadMagic,
    #[error("the size is not that of a layout with so many images")]
    BadSize,
    #[error("the checksum is another")]
    BadCrc,
    #[error("a field has a value that it must not have")]
    BadField,
    #[error("the banks do not fit the flash")]
    BeyondFlash,
}

/// Why a block is no metadata, the first fault.
#[derive(Clone, Copy, Debug, PartialEq, Eq, Error)]
pub enum MetaFault {
    #[error("shorter than metadata")]
    Short,
    #[error("of another version than 1 and 2")]
    NotTwo,
    #[error("the size is not that of the layout")]
    BadSize,
    #[error("the checksum is another")]
    BadCrc,
    #[error("a field has a value that it must not have")]
    BadField,
}

/// Why bytes are no manifest, the first fault.
#[derive(Clone, Copy, Debug, PartialEq, Eq, Error)]
pub enum ManifestFault {
    #[error("shorter than a manifest")]
    Short,
    #[error("without a manifest's magic number")]
    BadMagic,
    #[error("of another form than the version asks for")]
    BadForm,
    #[error("the security version is too high")]
    VersionTooHigh,
    #[error("the number of rows is not that of the images")]
    BadCount,
    #[error("a row is not that of the image at its place")]
    WrongOrder,
    #[error("an image is larger than its slot")]
    TooLarge,
    #[error("an image has another digest")]
    BadDigest,
}

/// Why a file is no package, the first fault.
#[derive(Clone, Copy, Debug, PartialEq, Eq, Error)]
pub enum FipFault {
    #[error("shorter than the header")]
    ShortHeader,
    #[error("the header has another name")]
    BadName,
    #[error("the serial number is 0")]
    ZeroSerial,
    #[error("the table ends without its end marker, after {0} entries")]
    NoEnd(u32),
    #[error("more than 64 entries")]
    TooMany,
    #[error("entry {0} has the UUID of an earlier one")]
    Duplicate(u32),
    #[error("entry {0} passes the file's end")]
    Beyond(u32),
}

/// Why a file is no capsule: its first fault. The number in a fault is that of an item, from 0.
#[derive(Clone, Copy, Debug, PartialEq, Eq, Error)]
pub enum CapsuleFault {
    /// The file is shorter than the header, 28 bytes.
    #[error("shorter than the header")]
    ShortHeader,
    /// It does not begin with the UUID of these capsules.
    #[error("not of the UUID of these capsules")]
    NotFmp,
    /// The header's size is below 28 or above the capsule's, or that is above the file's.
    #[error("the header's size or the capsule's is wrong")]
    BadSize,
    /// The payloads' header, or the places of drivers and items, pass the capsule's end.
    #[error("the payloads' header or the places pass the capsule's end")]
    ShortFmp,
    /// The payloads' header has another version than 1.
    #[error("the payloads' header has another version than 1")]
    BadVersion,
    /// More than 64 items.
    #[error("more than 64 items")]
    TooMany,
    /// The item does not lie between the places' end and the capsule's, has another version than 1,
    /// 2 and 3, or has the nil UUID.
    #[error("item {0} is wrong")]
    BadItem(u32),
    /// The item has the type of an earlier one.
    #[error("item {0} has the type of an earlier one")]
    Duplicate(u32),
}

impl CapsuleFault {
    ghost use Rattle.std.specs.Prelude.{◌≡◌};
    ghost use Rattle.fwu_formats.specs.FaultText.{capsule_fault_number};

    /// The number of the fault, 1 to 8, in the order of the tests.
    pub fn number(&self) -> u32
        ensures { result ≡ capsule_fault_number self.now }
    {
        match self {
            CapsuleFault::ShortHeader => 1,
            CapsuleFault::NotFmp => 2,
            CapsuleFault::BadSize => 3,
            CapsuleFault::ShortFmp => 4,
            CapsuleFault::BadVersion => 5,
            CapsuleFault::TooMany => 6,
            CapsuleFault::BadItem(_) => 7,
            CapsuleFault::Duplicate(_) => 8,
        }
    }
}
