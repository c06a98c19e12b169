ghost use Rattle.metadata_bounds.specs.Strings.{StringsAreShort};
ghost use Rattle.metadata_bounds.specs.Names.{FiltersAreShort, MentionsAreFew, NamesAreFew, RolesHaveFewNames};

/// No string of a TOML document is longer than its text, and so no filter of metadata: it has at most 1,048,576 bytes.
pub fn filters()
    ensures strings { StringsAreShort }
    ensures short { FiltersAreShort }
{}

/// A filter names no more session variables than it has bytes, and so a role of metadata names at most 268,435,456: it
/// has at most one filter for each of 256 tables.
pub fn names()
    ensures mentions { MentionsAreFew }
    ensures few { NamesAreFew }
    ensures roles { RolesHaveFewNames }
{}
