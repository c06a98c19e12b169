ghost use Rattle.std.specs.Prelude.{◌≡◌, false, IfOk};
ghost use Rattle.metadata_bounds.specs.Names.{ShortFilters};
ghost use Rattle.role_model.specs.MetadataFaults.{too_many};

use crate::faults::has_too_many;
use crate::meaning::roles_of;
use crate::mentions::role_names_of;
use crate::plain::plain_role_of;
use metadata_form::{read_document, read_toml};
use role_model::{Document, RoleDef};
use scalar_val::NoMemory;
use std::alloc::Global;

const COLUMNS: &str = "key = [\"id\"]\ncolumns = [{ name = \"id\", type = \"int\" }]\n";

/// The document of a text of at most 1,048,576 bytes.
#[tactic(auto, using(metadata_bounds::proofs::FilterTexts::filters_are_short))]
fn read(alloc: Global, text: &str) -> Result<Document, NoMemory>
    ensures { IfOk result (λ d. ShortFilters d.tables) }
{
    if text.len() > 1048576 {
        return Err(NoMemory);
    }
    let table = read_toml(alloc, text.as_bytes()).map_err(|_| NoMemory)?;
    read_document(alloc, &table).map_err(|_| NoMemory)
}

/// Three tables with these permissions.
fn document_of(alloc: Global, selects: [&str; 3]) -> Result<Document, NoMemory>
    ensures { IfOk result (λ d. ShortFilters d.tables) }
{
    let mut text = String::from_str(alloc, "version = 1\n")?;
    for select in selects {
        text.push_str("[[tables]]\nname = \"some\"\n")?;
        text.push_str(COLUMNS)?;
        text.push_str("select = [")?;
        text.push_str(select)?;
        text.push_str("]\n")?;
    }
    read(alloc, text.as_str())
}

/// A role's name, its session variables, and the table and the limit of each of its permissions.
fn told(alloc: Global, role: &RoleDef) -> Result<String, NoMemory> {
    let mut text = String::from_str(alloc, role.name.as_str())?;
    for name in role.session_names.as_slice() {
        text.push_str(" ")?;
        text.push_str(name.as_str())?;
    }
    for grant in role.grants.as_slice() {
        let part = format!(in alloc; " {}:{}", grant.table, grant.limit.unwrap_or(0))?;
        text.push_str(part.as_str())?;
    }
    text.push_str(";")?;
    Ok(text)
}

/// What all roles are as the crate reads them.
#[tactic(auto, using(crate::proofs::Few::few))]
fn told_at_once(alloc: Global, document: &Document) -> Result<String, NoMemory>
    requires few { too_many document.now ≡ false }
    requires short { ShortFilters document.now.tables }
{
    let tables = document.tables.as_slice();
    let names = role_names_of(alloc, tables)?;
    let roles = roles_of(alloc, tables, names.names())?;
    let mut text = String::new(alloc);
    for role in roles.as_slice() {
        text.push_str(told(alloc, role)?.as_str())?;
    }
    Ok(text)
}

/// What all roles are, read table by table.
#[tactic(auto, using(crate::proofs::Few::few))]
fn told_plainly(alloc: Global, document: &Document) -> Result<String, NoMemory>
    requires few { too_many document.now ≡ false }
    requires short { ShortFilters document.now.tables }
{
    let tables = document.tables.as_slice();
    let names = role_names_of(alloc, tables)?;
    let mut text = String::new(alloc);
    for name in names.names() {
        let role = plain_role_of(alloc, tables, name.as_str())?;
        text.push_str(told(alloc, &role)?.as_str())?;
    }
    Ok(text)
}

/// Whether both ways of reading say this.
fn both_say(alloc: Global, selects: [&str; 3], want: &str) -> Result<bool, NoMemory> {
    let document = document_of(alloc, selects)?;
    if has_too_many(&document) {
        return Ok(false);
    }
    let at_once = told_at_once(alloc, &document)?;
    let plainly = told_plainly(alloc, &document)?;
    Ok(at_once.as_str() == want && plainly.as_str() == want)
}

const ANN: &str =
    r#"{ role = "ann", columns = ["id"], limit = 1, filter = '{"id":{"_eq":"X-Hasura-A"}}' }"#;

const BOB: &str =
    r#"{ role = "bob", columns = ["id"], limit = 2, filter = '{"id":{"_eq":"X-Hasura-B"}}' }"#;

const BOTH: &str =
    r#"{ role = "bob", columns = ["id"], limit = 3, filter = '{"id":{"_eq":"X-Hasura-C"}}' }, { role = "ann", columns = ["id"], limit = 4, filter = '{"id":{"_eq":"X-Hasura-A"}}' }"#;

const TWICE: &str =
    r#"{ role = "ann", columns = ["id"], limit = 5, filter = '{"id":{"_eq":"X-Hasura-D"}}' }, { role = "bob", columns = ["id"], limit = 6, filter = '{}' }, { role = "ann", columns = ["id"], limit = 7, filter = '{"id":{"_eq":"X-Hasura-E"}}' }"#;

const NO_FILTER: &str =
    r#"{ role = "ann", columns = ["id"], limit = 8, filter = '[]' }, { role = "ann", columns = ["id"], limit = 9, filter = '{}' }"#;

#[test]
fn roles_are_read_at_once_as_table_by_table(rt: HostRuntime) {
    let alloc = rt.alloc();
    for (selects, want) in [
        (["", "", ""], ""),
        ([ANN, "", ""], "ann x-hasura-a 0:1;"),
        (["", ANN, BOB], "ann x-hasura-a 1:1;bob x-hasura-b 2:2;"),
        ([ANN, "", ANN], "ann x-hasura-a 0:1 2:1;"),
        (
            [BOTH, BOB, ANN],
            "bob x-hasura-c x-hasura-b 0:3 1:2;ann x-hasura-a 0:4 2:1;",
        ),
        ([TWICE, "", ""], "ann x-hasura-d 0:5;bob 0:6;"),
        (
            [ANN, TWICE, TWICE],
            "ann x-hasura-a x-hasura-d 0:1 1:5 2:5;bob 1:6 2:6;",
        ),
        ([NO_FILTER, BOB, ""], "ann;bob x-hasura-b 1:2;"),
    ] {
        assert!(rt; both_say(alloc, selects, want) == Ok(true), "{want}");
    }
}
