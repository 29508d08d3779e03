//! How many edges are cut.

/// How many edges a composition has, and how many of them lead from one group to another. An edge leads from a component to one that
/// can take an action that it sends.
#[derive(Clone, Copy, PartialEq, Eq)]
pub struct Cut {
    pub edges: usize,
    pub cut: usize,
}

/// The edges that are cut, by whom each component sends to.
pub(crate) fn count_cut(sent: &[Vec<u16>], group_of: &[u16]) -> Cut {
    let mut edges = 0usize;
    let mut cut = 0usize;
    for (sender, receivers) in sent.iter().enumerate() {
        for receiver in receivers {
            edges = edges.saturating_add(1);
            if are_apart(group_of, sender, usize::from(*receiver)) {
                cut = cut.saturating_add(1);
            }
        }
    }
    Cut { edges, cut }
}

fn are_apart(group_of: &[u16], a: usize, b: usize) -> bool {
    a < group_of.len() && b < group_of.len() && group_of[a] != group_of[b]
}
