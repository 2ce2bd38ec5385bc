//! Binary trees of digests over rows: layers, roots as commitments, the paths of rows to a root,
//! the bytes of rows of field elements, and what these bind. It is generic in the hash.
#![tactic(auto)]

mod bytes;
mod hash;
mod path;
mod paths;
mod root;
mod root_json;
#[cfg(test)]
mod tests;
mod tree;

pub use bytes::{
    begin_rows, opened_rows_bind, pair_bytes, pair_bytes_tell_pairs, push_row, row_bytes,
    row_bytes_tell_rows, write_pair, write_rows,
};
pub use hash::{Sha256Tree, TreeHash, first_eight_leaves};
pub use path::{
    full_trees_have_paths, full_trees_have_roots, is_path_to, own_rows_lead_to_roots, paths_bind,
    root_of_path, rows_bind, tops_are_roots, trees_lead_to_roots,
};
pub use paths::eight_lead;
pub use root::Root;
pub use tree::{leaves, next_layer, path_in, root_in, tree_layers};
