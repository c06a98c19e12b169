ghost use Rattle.std.specs.Prelude.{◌≡◌, ◌≤◌, ◌<◌, length, map, find, option_and_then, slice_get, Some, Ok, Err, IfOk};
ghost use Rattle.std.specs.Prelude.{IfSome, option_map, position};
ghost use Rattle.std.specs.List.{AllByRecursion};
ghost use Rattle.std.specs.Option.{option_copied};
ghost use Rattle.std.specs.Str.{bytes_eq};
ghost use Rattle.toml.specs.View.{table_view};
ghost use Rattle.metadata_bounds.specs.Names.{ShortFilters};
ghost use Rattle.role_model.specs.declared.metadata.Document.{Document};
ghost use Rattle.role_model.specs.JsonFilters.{column_number};
ghost use Rattle.role_model.specs.MetadataForm.{document_of};
ghost use Rattle.role_model.specs.MetadataFaults.{fault_of};
ghost use Rattle.role_model.specs.MetadataMeaning.{judged_by, formed_by, metadata_of, IsMetadata};
ghost use Rattle.role_model.specs.Roles.{links_at};
ghost use Rattle.role_schema.specs.GrantNumbers.{index_of};
ghost use Rattle.role_schema.specs.Sound.{Sound, SoundTable, columns_at};

use crate::columns::{column_names_of_all, table_names_of_all};
use crate::grants::{GrantIndex, indexes_of_all};
use crate::links::{link_at, names_of_all, place_at};
use data_model::{Catalog, TableDef};
use metadata_form::{FormFault, read_document, read_toml};
use metadata_read::{Meaning, find_fault, read_meaning};
use name_set::NameSet;
use role_model::{Document, LinkDef, MetaFault, Metadata, RoleDef};
use scalar_val::{List, NoMemory};
use std::alloc::Global;
use std::marker::Model;
use toml::Table;

/// Why metadata isn't read.
#[derive(Clone, Copy, Debug, PartialEq, Eq)]
pub enum MetaReadFault {
    /// The first fault that holds of the text.
    Refused(MetaFault),
    /// Memory was refused.
    NoMemory,
}

impl From<NoMemory> for MetaReadFault {
    ghost use Rattle.std.specs.Prelude.{◌≡◌};
    ghost use Rattle.role_schema.specs.declared.meta.MetaReadFault.TheVariants.{NoMemory};

    ghost from_gives = { λ _ e. e ≡ NoMemory };

    fn from(_error: NoMemory) -> MetaReadFault {
        MetaReadFault::NoMemory
    }
}

fn role_at(roles: &[RoleDef], place: Option<usize>) -> Option<&RoleDef>
    ensures { option_copied result ≡ option_and_then (slice_get roles.now) place }
{
    match place {
        Some(at) => roles.get(at),
        None => None,
    }
}

fn index_at(indexes: &[GrantIndex], place: Option<usize>) -> Option<&GrantIndex>
    ensures { option_copied result ≡ option_and_then (slice_get indexes.now) place }
{
    match place {
        Some(at) => indexes.get(at),
        None => None,
    }
}

fn judge(alloc: Global, document: Document) -> Result<Meaning, MetaReadFault>
    requires short { ShortFilters document.tables }
    ensures ok { IfOk result (λ m. judged_by document (fault_of document) ≡ Ok m.metadata) }
    ensures names { IfOk result (λ m. m.role_names ≡ map (λ r. r.name) m.metadata.roles) }
    ensures refused { (fault : MetaFault) → result ≡ Err (MetaReadFault.Refused fault) → judged_by document (fault_of document) ≡ Err fault }
{
    match find_fault(alloc, &document)? {
        Some(fault) => Err(MetaReadFault::Refused(fault)),
        None => Ok(read_meaning(alloc, document)?),
    }
}

fn judge_form(alloc: Global, table: &Table) -> Result<Meaning, MetaReadFault>
    requires short { (d : Document) → document_of (table_view table.now) ≡ Some d → ShortFilters d.tables }
    ensures ok { IfOk result (λ m. formed_by (document_of (table_view table.now)) ≡ Ok m.metadata) }
    ensures names { IfOk result (λ m. m.role_names ≡ map (λ r. r.name) m.metadata.roles) }
    ensures refused { (fault : MetaFault) → result ≡ Err (MetaReadFault.Refused fault) → formed_by (document_of (table_view table.now)) ≡ Err fault }
{
    match read_document(alloc, table) {
        Ok(document) => judge(alloc, document),
        Err(FormFault::Form) => Err(MetaReadFault::Refused(MetaFault::BadForm)),
        Err(FormFault::NoMemory) => Err(MetaReadFault::NoMemory),
    }
}

#[tactic(auto, using(metadata_bounds::proofs::FilterTexts::filters_are_short))]
fn read_metadata(alloc: Global, text: &[u8]) -> Result<Meaning, MetaReadFault>
    ensures ok { IfOk result (λ m. metadata_of text.now ≡ Ok m.metadata) }
    ensures names { IfOk result (λ m. m.role_names ≡ map (λ r. r.name) m.metadata.roles) }
    ensures refused { (fault : MetaFault) → result ≡ Err (MetaReadFault.Refused fault) → metadata_of text.now ≡ Err fault }
{
    if text.len() > 1048576 {
        return Err(MetaReadFault::Refused(MetaFault::TooLong));
    }
    match read_toml(alloc, text) {
        Ok(table) => judge_form(alloc, &table),
        Err(FormFault::Form) => Err(MetaReadFault::Refused(MetaFault::Toml)),
        Err(FormFault::NoMemory) => Err(MetaReadFault::NoMemory),
    }
}

/// Metadata that was read: tables, relationships, roles and settings. Contracts see what it says; some text says it. A
/// table, a role, and a table's column and relationship are found in logarithmic time.
#[derive(Debug, Drop)]
pub struct Meta {
    said: Metadata,
    role_names: NameSet,
    table_names: NameSet,
    column_names: List<NameSet>,
    link_names: List<NameSet>,
    grants: List<GrantIndex>,
}

impl Model for Meta {
    ghost use Rattle.role_model.specs.declared.metadata.Metadata.{Metadata};
    ghost use Rattle.role_model.specs.MetadataMeaning.{IsMetadata};

    ghost Value = { Metadata };

    ghost use Rattle.role_model.specs.contracts.metadata.Metadata as row_of;

    ghost coded = { row_of.the_row.coded };

    ghost view = { λ m. m.said };

    ghost use Rattle.std.specs.Prelude.{◌≡◌, map};
    ghost use Rattle.role_schema.specs.ColumnNames.{names_in_table, names_of_tables};
    ghost use Rattle.role_schema.specs.GrantNumbers.{index_of};
    ghost use Rattle.role_schema.specs.LinkNames.{names_of_links};

    ghost invariant = { λ m. IsMetadata m.said × (m.role_names ≡ map (λ r. r.name) m.said.roles)
        × (m.table_names ≡ names_of_tables m.said.catalog.tables)
        × (m.column_names ≡ map names_in_table m.said.catalog.tables)
        × (m.link_names ≡ map names_of_links m.said.links)
        × (m.grants ≡ map index_of m.said.roles) };
}

impl Meta {
    /// Metadata as its text says it, or the first fault that holds of the text, in the order of `MetaFault`. The text is
    /// one TOML document in UTF-8. `NoMemory` where memory is refused.
    #[tactic(auto, using(crate::proofs::Soundness::text_says))]
    pub fn read(alloc: Global, text: &[u8]) -> Result<Meta, MetaReadFault>
        ensures ok { IfOk result (λ m. metadata_of text.now ≡ Ok m) }
        ensures refused { (fault : MetaFault) → result ≡ Err (MetaReadFault.Refused fault) → metadata_of text.now ≡ Err fault }
    {
        match read_metadata(alloc, text) {
            Ok(meaning) => {
                let Meaning {
                    metadata: said,
                    role_names,
                } = meaning;
                let table_names = table_names_of_all(alloc, said.catalog.tables.as_slice())?;
                let column_names = column_names_of_all(alloc, said.catalog.tables.as_slice())?;
                let link_names = names_of_all(alloc, said.links.as_slice())?;
                let grants = indexes_of_all(alloc, said.roles.as_slice())?;
                Ok(Meta {
                    said,
                    role_names,
                    table_names,
                    column_names,
                    link_names,
                    grants,
                })
            }
            Err(fault) => Err(fault),
        }
    }

    /// Tells a proof that some text says this metadata. It does nothing.
    pub fn is_metadata(&self)
        ensures { IsMetadata self.now }
    {
        let _ = &self.said;
    }

    /// Tells a proof what holds of all metadata that some text says: its numbers are in range, and its filters fit
    /// their tables. It does nothing.
    pub fn sound(&self)
        ensures { Sound self.now }
    {
        let _ = &self.said;
    }

    /// The tables, by number: at most 256, each of at most 64 columns. A key isn't empty and has no nullable column.
    pub fn catalog(&self) -> &Catalog
        ensures value { result.now ≡ self.now.catalog }
        ensures few { length result.now.tables ≤ 256 }
        ensures sound { AllByRecursion SoundTable result.now.tables }
    {
        self.sound();
        &self.said.catalog
    }

    /// How many cohorts a batch has at most, from 1 to 1,000.
    pub fn batch_size(&self) -> u32
        ensures value { result ≡ self.now.batch_size }
        ensures range { (1 ≤ result) × (result ≤ 1000) }
    {
        self.sound();
        self.said.batch_size
    }

    /// How long a worker waits between two rounds, in milliseconds, from 1 to 3,600,000.
    pub fn refetch_ms(&self) -> u32
        ensures value { result ≡ self.now.refetch_ms }
        ensures range { (1 ≤ result) × (result ≤ 3600000) }
    {
        self.sound();
        self.said.refetch_ms
    }

    /// What the header `x-hasura-admin-secret` has to be for a request to be trusted. Without one every request is.
    pub fn secret(&self) -> Option<&str>
        ensures { option_copied result ≡ self.now.secret }
    {
        match &self.said.secret {
            Some(secret) => Some(secret.as_str()),
            None => None,
        }
    }

    /// The role of requests that aren't trusted. Without one they are forbidden.
    pub fn unauthorized_role(&self) -> Option<&str>
        ensures { option_copied result ≡ self.now.unauthorized_role }
    {
        match &self.said.unauthorized_role {
            Some(role) => Some(role.as_str()),
            None => None,
        }
    }

    /// The place of a role among the roles; `None` where no permission names it.
    pub(crate) fn role_place(&self, name: &str) -> Option<usize>
        ensures { option_and_then (slice_get self.now.roles) result ≡ find (λ r. bytes_eq name.now r.name) self.now.roles }
    {
        self.role_names.place(name)
    }

    /// What the metadata says of the role at a place.
    pub(crate) fn role_in(&self, place: Option<usize>) -> Option<&RoleDef>
        ensures { option_copied result ≡ option_and_then (slice_get self.now.roles) place }
    {
        role_at(self.said.roles.as_slice(), place)
    }

    /// The index of the permissions of the role at a place.
    pub(crate) fn grants_in(&self, place: Option<usize>) -> Option<&GrantIndex>
        ensures { option_copied result ≡ option_map index_of (option_and_then (slice_get self.now.roles) place) }
    {
        index_at(self.grants.as_slice(), place)
    }

    /// The number of the table of a name.
    pub(crate) fn table_number(&self, name: &str) -> Option<usize>
        ensures value { result ≡ position (λ (t : TableDef). bytes_eq name.now t.name) self.now.catalog.tables }
        ensures bound { IfSome result (λ at. at < length self.now.catalog.tables) }
    {
        self.table_names.place(name)
    }

    /// The number of the column of a name of the table of a number.
    pub(crate) fn column_number(&self, table: u32, name: &str) -> Option<usize>
        ensures value { result
            ≡ option_and_then (λ (t : TableDef). column_number t.columns name.now) (slice_get self.now.catalog.tables table) }
        ensures bound { IfSome result (λ at. at < length (columns_at self.now.catalog.tables table)) }
    {
        place_at(self.column_names.get(table as usize), name)
    }

    /// The relationship of a name of the table of a number.
    pub(crate) fn link_named(&self, table: u32, name: &str) -> Option<&LinkDef>
        ensures { option_copied result
            ≡ find (λ l. bytes_eq name.now l.name) (links_at (slice_get self.now.links table)) }
    {
        let place = place_at(self.link_names.get(table as usize), name);
        link_at(self.said.links.get(table as usize), place)
    }

    pub(crate) fn said(&self) -> &Metadata
        ensures value { result.now ≡ self.now }
        ensures sound { Sound self.now }
    {
        self.sound();
        &self.said
    }
}
