//! Files of cases: tests as data, for programs that run them and tell which come out otherwise than they say.
//!
//! A file of cases is paragraphs with an empty line between two of them. A paragraph whose first line is `set` holds
//! settings for the cases behind it, up to the next such paragraph. One whose every line begins with `# ` is a remark. Every
//! other paragraph is a case, whose first line says in words what it is about. What else a line says is for the program.
#![tactic(auto)]

mod content;
mod paragraphs;
mod readers;
mod run;

pub use content::Content;
pub use paragraphs::{Judge, told};
pub use readers::{add_bytes, add_numbers, parted};
pub use run::judge_files;
