//! What is sent of a package.
use fip_tables::Entry;

/// The payloads of a package that are sent, by the name of its file.
#[derive(Clone, Copy)]
pub struct Payloads<'a> {
    pub name: &'a str,
    pub entries: &'a [Entry],
}

/// One of them.
#[derive(Clone, Copy)]
pub struct Payload<'a> {
    pub name: &'a str,
    pub entry: &'a Entry,
}
