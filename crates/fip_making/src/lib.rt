//! What `fip` reads of files and of the source, and what it makes of it: tables, packages, capsules and manifests. Nothing is
//! written here, and nothing is printed.
#![tactic(auto)]

mod capsules;
mod enclosing;
mod made;
mod making;
mod manifests;
mod named;
mod packing;
mod payloads;
mod reading;
mod stops;
mod table;

pub use capsules::{capsule_of_package, package_of_capsule};
pub use made::Made;
pub use making::{created, removed, updated};
pub use manifests::manifest;
pub use named::{has_type_among, table_with};
pub use stops::Stop;
pub use table::{read_given, read_package};
