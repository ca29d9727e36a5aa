// The filter that the marks decide: each cell is cut once, at a bound, and no rank is tried one by one.
use crate::bounding::rule_bounds;
use crate::cutting::cut_row;
use crate::sides::Side;
use rules::faults::FilterFault;
use rules::filter::Filter;
use stores::store::Store;

#[derive(Clone, Copy)]
pub struct ByMarks;

impl Filter for ByMarks {
    fn filter<S: Store>(
        &self,
        store: &mut S,
        left: &[u8],
        right: &[u8],
    ) -> Result<usize, FilterFault> {
        let bounds = rule_bounds(store, left, right)?;
        let lower = cut_row(store, left, Side::Left, bounds)?;
        let upper = cut_row(store, right, Side::Right, bounds)?;
        Ok(lower + upper)
    }
}
