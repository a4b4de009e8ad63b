//! Rules by their numbers in source order.

ghost use Rattle.std.specs.Prelude.{◌≡◌, map};
ghost use Rattle.std.specs.Option.{option_map};
ghost use Rattle.yr_outcome.specs.Front.{rule_name};
ghost use Rattle.yr_syntax.specs.Declaration.{declaration_of, declarations_of};
ghost use Rattle.yr_checks.specs.Sources.{unit_of};
ghost use Rattle.yr_front.specs.RuleNames.{names_among, all_names, Finds};

use yr_checks::Unit;
use yr_syntax::Decl;

// The name of a rule among declarations, by how many rules stand before it. Where there is none, so many less are left.
fn find_among<'d>(decls: &'d [Decl], left: &mut u32) -> Option<&'d [u8]>
    ensures { Finds (names_among (map declaration_of decls.now)) left.old left.new (option_map (λ n. n.now) result) }
{
    let mut rest = decls;
    while let [decl, more @ ..] = rest {
        if let Decl::Rule(rule) = decl {
            if *left == 0 {
                return Some(rule.name.as_slice());
            }
            *left -= 1;
        }
        rest = more;
    }
    None
}

fn find_in<'u>(units: &'u [Unit], left: &mut u32) -> Option<&'u [u8]>
    ensures { Finds (all_names (map unit_of units.now)) left.old left.new (option_map (λ n. n.now) result) }
{
    let mut rest = units;
    while let [unit, more @ ..] = rest {
        if let Some(name) = find_among(unit.decls.as_slice(), left) {
            return Some(name);
        }
        rest = more;
    }
    None
}

/// The name of the rule of a number in source order, none past the last.
pub fn rule_name(units: &[Unit], number: u32) -> &[u8]
    ensures { result.now ≡ rule_name (map unit_of units.now) number }
{
    let mut left = number;
    match find_in(units, &mut left) {
        Some(name) => name,
        None => b"",
    }
}
