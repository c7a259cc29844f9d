//! What a redo record does to pages, and what pages hold that are what a redo list makes them, in words that the laws over
//! lists and the code of pages share. It has no code.
#![tactic(auto)]
