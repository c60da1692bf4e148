// The rows by which a record is refused that look at other records: links, rules, policy nodes and groups. What looks at all
// records before one takes the store and how many they are, as C lends them: they are no network yet.
#![tactic(auto)]

pub mod groups;
pub mod links;
pub mod rules;
mod table;
