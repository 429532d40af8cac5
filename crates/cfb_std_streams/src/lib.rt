//! What std's traits know of a stream and of its errors: what the streams of compound files are to std stands on this.
#![tactic(auto)]

pub mod kinds;
