// What found entries are to state.
use crate::counts::Count;

/// What found entries are to state, in their order.
#[derive(Drop)]
pub struct Dues {
    /// The least and the greatest link count that each may state (ECMA-167 4/14.9.6).
    pub counts: Vec<Count>,
    /// The link count that each is to state.
    pub links: Vec<u16>,
    /// The identifier that each is to state (ECMA-167 4/14.9.18).
    pub ids: Vec<u64>,
}
