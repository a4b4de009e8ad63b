//! The image of checked rules.

ghost use Rattle.std.specs.Prelude.{IfOk};
ghost use Rattle.yr_preserves.specs.Shape.{IsCompiled};
ghost use Rattle.yr_preserves.specs.RuleIds.{HaveIds};
ghost use Rattle.yr_compiler.specs.Finds.{FindsSame};
ghost use Rattle.yr_rules.specs.Rules.{rules_of};
ghost use Rattle.yr_scan.specs.Scanned.{module_values};

use std::alloc::Global;
use yr_base::NoMemory;
use yr_checks::CheckedRules;

/// The bytes of an image to which rules are compiled.
pub fn image_of(alloc: Global, rules: &CheckedRules) -> Result<Vec<u8>, NoMemory>
    requires { HaveIds (rules_of rules.now) }
    ensures compiled { IfOk result (λ bytes. IsCompiled module_values bytes.items (rules_of rules.now)) }
    ensures finds { IfOk result (λ bytes. FindsSame module_values bytes.items (rules_of rules.now)) }
{
    yr_modules::laws::values_keep_the_table();
    let tables = yr_compiler::compile(alloc, rules)?;
    yr_image::encode(alloc, &tables)
}
