ghost use Rattle.std.specs.Prelude.{◌≡◌, ◌≤◌, ◌<◌, ◌==◌, length, slice_get, Some, None, IfSome, IsTrue, position, find};
ghost use Rattle.std.specs.Prelude.{map, option_and_then, option_map, codes};
ghost use Rattle.std.specs.List.{list_any, list_all};
ghost use Rattle.std.specs.Option.{option_copied};
ghost use Rattle.std.specs.Str.{bytes_eq};
ghost use Rattle.role_model.specs.JsonFilters.{column_number};
ghost use Rattle.role_model.specs.MetadataMeaning.{IsMetadata};
ghost use Rattle.role_schema.specs.Sound.{Sound, SoundLink, FitsRows, columns_at};
ghost use Rattle.role_model.specs.Roles.{is_admin, role_of, grants_by, grant_on, table_at, sees_table, table_seen};
ghost use Rattle.role_model.specs.Roles.{only_if, sees_column, column_seen, links_at, link_seen};
ghost use Rattle.role_model.specs.Roles.{key_seen, filter_seen, cap_seen, names_by, session_name_seen};
ghost use Rattle.role_schema.specs.GrantNumbers.{index_of, tables_of};
ghost use Rattle.role_schema.specs.Numbers.{first_number};

use crate::grants::GrantIndex;
use crate::meta::Meta;
use data_model::{Catalog, TableDef};
use plan_model::Filter;
use role_model::{Grant, LinkDef, RoleDef};
use scalar_val::Str;
use std::marker::Model;

/// Metadata as one role sees it. The look-ups take no memory, and answer `None` or false exactly where the role sees no
/// such thing. The role `admin` sees everything; a role that no permission names sees nothing.
#[derive(Drop)]
pub struct RoleView<'a> {
    meta: &'a Meta,
    role: &'a str,
    place: Option<usize>,
}

impl<'a> Model for RoleView<'a> {
    ghost use Rattle.role_model.specs.Roles.{View};

    ghost Value = { View };

    ghost use Rattle.role_model.specs.contracts.metadata.Metadata as row_of;
    ghost use Rattle.std.specs.Coded.{codes};

    ghost coded = { Prim.hlevel (codes, row_of.the_row.coded) };

    ghost view = { λ v. record { metadata = v.meta.now; role = v.role.now } };

    ghost use Rattle.std.specs.Prelude.{◌≡◌, option_and_then, slice_get};
    ghost use Rattle.role_model.specs.Roles.{role_of};

    ghost invariant = { λ v. option_and_then (slice_get v.meta.now.roles) v.place
        ≡ role_of (record { metadata = v.meta.now; role = v.role.now }) };
}

impl Meta {
    /// The metadata as a role sees it. The role is looked up once, in logarithmic time.
    pub fn view<'a>(&'a self, role: &'a str) -> RoleView<'a>
        ensures { result ≡ record { metadata = self.now; role = role.now } }
    {
        let place = self.role_place(role);
        RoleView {
            meta: self,
            role,
            place,
        }
    }
}

fn grant_at(grants: &[Grant], place: Option<usize>) -> Option<&Grant>
    ensures { option_copied result ≡ option_and_then (slice_get grants.now) place }
{
    match place {
        Some(at) => grants.get(at),
        None => None,
    }
}

impl<'a> RoleView<'a> {
    /// Tells a proof that some text says the metadata. It does nothing.
    pub fn is_metadata(&self)
        ensures { IsMetadata self.now.metadata }
    {
        self.meta.is_metadata();
    }

    /// Tells a proof what holds of the metadata. It does nothing.
    pub fn sound(&self)
        ensures { Sound self.now.metadata }
    {
        self.meta.sound();
    }

    fn is_admin(&self) -> bool
        ensures { result ≡ is_admin self.now }
    {
        self.role == "admin"
    }

    fn role(&self) -> Option<&'a RoleDef>
        ensures { option_copied result ≡ role_of self.now }
    {
        self.meta.role_in(self.place)
    }

    fn grants(&self) -> Option<&'a GrantIndex>
        ensures { option_copied result ≡ option_map index_of (role_of self.now) }
    {
        self.meta.grants_in(self.place)
    }

    fn grant_place(&self, table: u32) -> Option<usize>
        ensures { result ≡ option_and_then (λ (r : RoleDef). first_number (tables_of r.grants) table) (role_of self.now) }
    {
        match self.grants() {
            Some(grants) => grants.place(table),
            None => None,
        }
    }

    #[tactic(auto, using(crate::proofs::NumberPlaces::grant_of_role))]
    fn grant(&self, table: u32) -> Option<&'a Grant>
        ensures { option_copied result ≡ grant_on self.now table }
    {
        match self.role() {
            Some(role) => grant_at(role.grants.as_slice(), self.grant_place(table)),
            None => None,
        }
    }

    fn sees_table(&self, table: u32) -> bool
        ensures { result ≡ sees_table self.now table }
    {
        if self.is_admin() {
            return (table as usize) < self.meta.said().catalog.tables.len();
        }
        self.grant(table).is_some()
    }

    #[tactic(auto, using(crate::proofs::NumberPlaces::column_of_role))]
    fn sees_column(&self, table: u32, column: u32) -> bool
        ensures { result ≡ sees_column self.now table column }
    {
        if self.is_admin() {
            return true;
        }
        match self.grants() {
            Some(grants) => grants.has_column(table, column),
            None => false,
        }
    }

    /// The number of the table of a name.
    #[tactic(auto, using(crate::proofs::Uses::few_tables))]
    pub fn table(&self, name: &str) -> Option<u32>
        ensures value { result ≡ table_seen self.now name.now }
        ensures range { IfSome result (λ t. t < length self.now.metadata.catalog.tables) }
    {
        self.sound();
        match self.meta.table_number(name) {
            Some(at) => {
                let table = at as u32;
                if self.sees_table(table) {
                    Some(table)
                } else {
                    None
                }
            }
            None => None,
        }
    }

    /// The catalog of all tables, those that the role doesn't see among them.
    pub fn catalog(&self) -> &'a Catalog
        ensures { result.now ≡ self.now.metadata.catalog }
    {
        &self.meta.said().catalog
    }

    /// The table of a number, whether or not the role sees it. It has at most 64 columns.
    #[tactic(auto, using(crate::proofs::Uses::narrow_table))]
    pub fn table_def(&self, table: u32) -> Option<&'a TableDef>
        ensures value { option_copied result ≡ table_at self.now table }
        ensures narrow { IfSome result (λ t. length t.now.columns ≤ 64) }
    {
        self.meta.said().catalog.tables.get(table as usize)
    }

    /// The number of the column of a name in the table of a number.
    #[tactic(auto, using(crate::proofs::Uses::seen_of_named, crate::proofs::Uses::narrow_columns))]
    pub fn column(&self, table: u32, name: &str) -> Option<u32>
        ensures value { result ≡ column_seen self.now table name.now }
        ensures range { IfSome result (λ c. c < length (columns_at self.now.metadata.catalog.tables table)) }
    {
        self.sound();
        match self.meta.column_number(table, name) {
            Some(at) => {
                let column = at as u32;
                if self.sees_column(table, column) {
                    Some(column)
                } else {
                    None
                }
            }
            None => None,
        }
    }

    fn link_if_seen(&self, link: &'a LinkDef) -> Option<&'a LinkDef>
        ensures { option_copied result ≡ only_if (sees_table self.now link.now.table) (Some link.now) }
    {
        if self.sees_table(link.table) {
            Some(link)
        } else {
            None
        }
    }

    fn link_named(&self, table: u32, name: &str) -> Option<&'a LinkDef>
        ensures { option_copied result ≡ find (λ l. bytes_eq name.now l.name) (links_at (slice_get self.now.metadata.links table)) }
    {
        self.meta.link_named(table, name)
    }

    /// The relationship of a name of the table of a number.
    pub fn link(&self, table: u32, name: &str) -> Option<&'a LinkDef>
        ensures value { option_copied result ≡ link_seen self.now table name.now }
        ensures sound { IfSome result (λ l. SoundLink self.now.metadata.catalog.tables (columns_at self.now.metadata.catalog.tables table) l.now) }
    {
        self.sound();
        if !self.sees_table(table) {
            return None;
        }
        match self.link_named(table, name) {
            Some(link) => self.link_if_seen(link),
            None => None,
        }
    }

    fn sees_columns(&self, table: u32, columns: &[u32]) -> bool
        ensures { result ≡ list_all (sees_column self.now table) columns.now }
    {
        for column in columns {
            if !self.sees_column(table, *column) {
                return false;
            }
        }
        true
    }

    /// Whether the role sees the table of a number and all of its key columns.
    pub fn key_visible(&self, table: u32) -> bool
        ensures { result ≡ key_seen self.now table }
    {
        match self.table_def(table) {
            Some(def) => self.sees_table(table) && self.sees_columns(table, def.key.as_slice()),
            None => false,
        }
    }

    /// The filter of the role's permission for the table of a number. `None` where there is no permission, as for
    /// `admin`, which sees all rows.
    pub fn filter(&self, table: u32) -> Option<&'a Filter>
        ensures value { option_copied result ≡ filter_seen self.now table }
        ensures fits { IfSome result (λ f. FitsRows (length (columns_at self.now.metadata.catalog.tables table)) (names_by (role_of self.now)) f.now) }
    {
        self.sound();
        if self.is_admin() {
            return None;
        }
        match self.grant(table) {
            Some(grant) => Some(&grant.filter),
            None => None,
        }
    }

    /// The limit of the role's permission for the table of a number. `None` where there is none.
    pub fn cap(&self, table: u32) -> Option<u32>
        ensures { result ≡ cap_seen self.now table }
    {
        if self.is_admin() {
            return None;
        }
        match self.grant(table) {
            Some(grant) => grant.limit,
            None => None,
        }
    }

    fn session_name_str(&self, slot: u32) -> Option<&'a Str>
        ensures { option_copied result ≡ session_name_seen self.now slot }
    {
        match self.role() {
            Some(role) => role.session_names.get(slot as usize),
            None => None,
        }
    }

    /// The session variable, in lower case, that stands in a slot of the role's filters.
    pub fn session_name(&self, slot: u32) -> Option<&'a str>
        ensures { option_copied result ≡ session_name_seen self.now slot }
    {
        match self.session_name_str(slot) {
            Some(name) => Some(name.as_str()),
            None => None,
        }
    }
}
