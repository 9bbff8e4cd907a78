// The strip: what each variable action gives as the leader, and then what it gives beside one.
ghost use Rattle.std.specs.Prelude.{◌≡◌, ◌≤◌, ◌++◌, map, length, drop};
ghost use Rattle.sheet.specs.Content.{content};
ghost use Rattle.envelope.specs.Layout.{role_factor, role_half, both_halves};

use crate::choice::Parts;
use crate::prepared::Prepared;
use basis::category::Category;
use basis::factor::Factor;
use effects::effect::Effect;
use rulebooks::rulebook::Rulebook;

// How a variable action acts beside the others. It is no closure that gives the factor, since of a closure a contract can say only
// what its calls may give, and of a role it names the factor.
#[derive(Clone, Copy)]
pub(crate) enum Role {
    Leading,
    Accompanying,
}

// The factor of a category in a role, zero for a leader where the form has none.
fn factor_of<R: Rulebook>(book: &R, form: u8, role: Role, category: Option<Category>) -> Factor
    ensures { result.units ≡ role_factor ((R.meaning book.now).form form) role category }
{
    let Some(category) = category else {
        return Factor::ZERO;
    };
    match role {
        Role::Leading if book.has_leader(form) => book.leading(form, category),
        Role::Leading => Factor::ZERO,
        Role::Accompanying => book.accompanying(form, category),
    }
}

impl<'a, R: Rulebook, E: Effect> Prepared<'a, R, E> {
    // Fills a half of the strip: at each variable action's place its contribution at the factor of its role, zero elsewhere.
    fn fill(&self, half: &mut [E], form: u8, role: Role)
        requires { length half.old ≡ 12 }
        ensures { map E.components half.new ≡ role_half E.count (map E.components self.now.case.now.effects.now) self.now.masks.now ((R.meaning self.now.case.now.book.now).form form) role (content self.now.case.now.sheet.now) }
    {
        let case = self.case;
        half.fill_with(|| E::zero());
        for entry in case.entries {
            if entry.action.kind.is_variable() {
                let factor = factor_of(case.book, form, role, entry.action.category);
                let parts = Parts::of(case, entry);
                half[entry.place] = parts.contribution(self.masks[entry.number], factor);
            }
        }
    }

    // Fills the leading half of a strip and then the accompanying half; the rest of the strip stays as it was. The strip is the
    // caller's, lent from call to call, so each says that it is long enough and keeps its rest: with its first places taken as an array,
    // that the rest stays was left open.
    pub(crate) fn fill_strip(&self, strip: &mut [E], form: u8)
        requires { 24 ≤ length strip.old }
        ensures halves { map E.components strip.new ≡ both_halves E.count (map E.components self.now.case.now.effects.now) self.now.masks.now ((R.meaning self.now.case.now.book.now).form form) (content self.now.case.now.sheet.now) ++ drop 24 (map E.components strip.old) }
        ensures rest { drop 24 strip.new ≡ drop 24 strip.old }
    {
        self.fill(&mut strip[0..12], form, Role::Leading);
        self.fill(&mut strip[12..24], form, Role::Accompanying);
    }
}
