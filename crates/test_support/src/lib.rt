//! What the crates of tests share.
//!
//! `files` and `texts` are the code files and network texts of the examples; `codes`, the check of a file's code;
//! `networks`, the nodes and links of a network beside those that are told; `gates`, which tell which jobs enter
//! them; `watched`, links that tell the calls made on them; `orders`, orders in which links give what flies; `runs`,
//! the words and the source of a run; `draws`, numbers that look random. The codes of the files are written out in
//! `specs`, for definitions that are computed on them.
#![tactic(auto)]

pub mod codes;
pub mod draws;
pub mod files;
pub mod gates;
pub mod networks;
pub mod orders;
pub mod runs;
pub mod texts;
pub mod watched;
