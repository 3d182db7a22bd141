use crate::case::Op;
use crate::lists::{Cases, Deps};

/// How a site answers: the first case that admits receiver and value, while all dependencies hold.
#[derive(Drop)]
pub struct Plan {
    pub site: u32,
    pub op: Op,
    pub name: u32,
    pub cases: Cases,
    pub deps: Deps,
}
