/// There was no room: some region has fewer items left than were needed.
#[derive(Clone, Copy, PartialEq, Eq)]
pub struct Space;
