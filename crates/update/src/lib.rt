// Steps 4 and 5 of the judge on bytes: marks cleared, records removed, the request recorded, the table written; or what they would answer. And the table
// after a closing.
#![tactic(auto)]

pub mod closing;
pub mod foreseeing;
pub mod grant;
pub mod table_after;
