//! Certificates of least costs, and their checker.
#![tactic(auto)]

mod bounds;
mod certificate;
mod checker;
mod entries;
mod forest_text;
pub mod kinds;
pub mod laws;
mod lines;
mod numbers;
mod parts;
mod print;
mod refusal;
mod tree_check;

pub use certificate::{TreeCertificate, certify};
pub use checker::check;
pub use forest_text::{CertifiedTrees, certify_trees};
pub use print::print_certificate;
pub use refusal::{CheckFault, CheckRefusal, TreeFault, TreeRefusal};
pub use tree_check::check_tree;
