ghost use Rattle.std.specs.Prelude.{◌≡◌, Some, None, Ok, Err, IfOk};
ghost use Rattle.toml.specs.View.{table_view};
ghost use Rattle.role_model.specs.MetadataMeaning.{toml_of};

use crate::form::FormFault;
use std::alloc::Global;
use toml::Table;

/// The TOML document of a text in UTF-8. `Form` where there is none, `NoMemory` where memory is refused.
pub fn read_toml(alloc: Global, text: &[u8]) -> Result<Table, FormFault>
    ensures ok { IfOk result (λ t. toml_of text.now ≡ Some (table_view t)) }
    ensures bad { result ≡ Err FormFault.Form → toml_of text.now ≡ None }
{
    match toml::table_from_slice(alloc, text) {
        Ok(table) => Ok(table),
        Err(error) => {
            if error.is_memory() {
                Err(FormFault::NoMemory)
            } else {
                Err(FormFault::Form)
            }
        }
    }
}
