ghost use Rattle.std.specs.Prelude.{◌≤◌, length};

use name_set::NameSet;
use query_model::SessionSlot;
use role_schema::RoleView;

/// What the parts of a plan are made with: what a role sees, the names of the variables, whose places are their slots,
/// and the session slots, whose places are those of the session's values. Places are numbered from 0, in 32 bits.
#[derive(Drop)]
pub struct Places<'a> {
    pub view: &'a RoleView<'a>,
    pub names: &'a NameSet,
    pub slots: &'a [SessionSlot],
    ghost few_names: { length names.now ≤ 4294967296 },
    ghost few_slots: { length slots.now ≤ 4294967296 },
}
