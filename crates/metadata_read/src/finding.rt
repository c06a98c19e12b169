ghost use Rattle.std.specs.Prelude.{◌≡◌, false, Some, None, IfOk};
ghost use Rattle.role_model.specs.MetadataFaults.{fault_of};

use crate::faults::{
    has_bad_filter, has_bad_kind, has_bad_name, has_bad_role, has_duplicate, has_no_column,
    has_no_table, has_too_many, has_wrong_version,
};
use role_model::{Document, MetaFault};
use scalar_val::NoMemory;
use std::alloc::Global;

/// The first fault of a document, in the order of `MetaFault`, and `None` where nothing is wrong with it. `NoMemory`
/// where memory is refused.
pub fn find_fault(alloc: Global, document: &Document) -> Result<Option<MetaFault>, NoMemory>
    ensures { IfOk result (λ o. o ≡ fault_of document.now) }
{
    if has_wrong_version(document) {
        return Ok(Some(MetaFault::BadVersion));
    }
    if has_too_many(document) {
        return Ok(Some(MetaFault::TooMany));
    }
    if has_bad_name(document) {
        return Ok(Some(MetaFault::BadName));
    }
    if has_duplicate(alloc, document)? {
        return Ok(Some(MetaFault::Duplicate));
    }
    if has_no_table(document) {
        return Ok(Some(MetaFault::NoTable));
    }
    if has_no_column(document) {
        return Ok(Some(MetaFault::NoColumn));
    }
    if has_bad_kind(document) {
        return Ok(Some(MetaFault::BadKind));
    }
    if has_bad_role(document) {
        return Ok(Some(MetaFault::BadRole));
    }
    if has_bad_filter(alloc, document)? {
        return Ok(Some(MetaFault::BadFilter));
    }
    Ok(None)
}
