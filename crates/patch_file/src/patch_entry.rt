ghost use Rattle.patch_file.specs.Exchanges.{AllKeepRules};
ghost use Rattle.patch_file.specs.RulesAreFacts.{rules_prop};

use crate::FieldList;
use patch_bytes::ByteList;

/// What one edit did to a body. Its old length and the old bytes of its fields are what a body must
/// have for the entry to be put on it.
#[derive(Debug, Drop)]
pub struct PatchEntry {
    /// The length of the body before the edit, in bytes.
    pub len: u32,
    /// The bytes that the edit exchanged. Each field lies within the old length, and begins where the
    /// one before it ends, or behind that.
    pub fields: FieldList,
    /// The bytes that the edit put behind the body.
    pub append: ByteList,
    ghost rules: { AllKeepRules 0 len fields } by { rules_prop 0 len fields },
}
