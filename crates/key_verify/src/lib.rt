//! Whether a content is its key's, and the key that is made of a content.
#![tactic(auto)]

mod crossing;
mod digester;
mod laws;
mod making;
mod method;
mod verdict;

pub use digester::{Digest, Digester, Sum};
pub use laws::{made_keys_match, verdicts_are_matches};
pub use making::{make_key, make_key_of_sum};
pub use method::Method;
pub use verdict::{Verdict, judge_sum, matches};
