use crate::entry_list::EntryList;

// What is kept of the elements that have their places.
#[derive(Drop)]
pub(crate) struct Placed {
    // For each element the number behind the last one below it.
    pub(crate) ends: Vec<u32>,
    // What else is kept of each element.
    pub(crate) entries: EntryList,
    // The numbers of those that are broken.
    pub(crate) broken: Vec<u32>,
}
