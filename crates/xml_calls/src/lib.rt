#![tactic(auto)]

// The two calls between rules and their text: definitions, and what they claim together.
