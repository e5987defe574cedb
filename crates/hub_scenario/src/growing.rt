//! Lists that grow as a file is read.

ghost use Rattle.std.specs.Prelude.{◌≡◌, ◌+◌, ◌++◌, ◌∷◌, [], vec_len, OnOk, IfErr};

use crate::ScenarioFault;

/// Puts one more element behind the others.
pub fn push<T: Drop>(list: &mut Vec<T>, element: T) -> Result<(), ScenarioFault>
    ensures ok { OnOk result (list.new.items ≡ list.old.items ++ element ∷ []) }
    ensures count { OnOk result (vec_len list.new ≡ vec_len list.old + 1) }
    ensures memory { IfErr result (λ fault. fault ≡ ScenarioFault.NoMemory) }
{
    match list.push(element) {
        Ok(()) => Ok(()),
        Err(_refused) => Err(ScenarioFault::NoMemory),
    }
}
