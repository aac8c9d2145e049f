use fip_tables::ImageEntries;
use meta_layout::Layout;

/// A layout, and the entry of each of its images.
#[derive(Drop)]
pub struct Plan {
    pub layout: Layout,
    pub entries: ImageEntries,
}
