use crate::str_map::StrMap;
use scalar_val::Str;

/// Who a connection acts for: a role and the session variables, whose names are in lower case.
#[derive(Debug, Drop)]
pub struct Session {
    pub role: Str,
    pub vars: StrMap,
}

/// The answer to the headers of a connection.
#[derive(Debug, Drop)]
pub enum Identity {
    Allowed(Session),
    Forbidden,
}
