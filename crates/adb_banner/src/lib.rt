//! The identity that a device reports, parsed from the payload of its CNXN (protocol.txt, "The
//! CONNECT message").
#![tactic(auto)]

mod identity;

pub use identity::{IdentityError, MAX_IDENTITY, has_feature, limits_are, read};
