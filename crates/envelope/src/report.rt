// The reported combination: the best of each form, and the first of greatest effect among those.
ghost use Rattle.std.specs.Prelude.{◌≡◌, ◌+◌, ◌-◌, ◌<◌, ◌≤◌, true, ◌++◌, map, length, drop, IfSome, None, slice_index};
ghost use Rattle.std.specs.Option.{option_map};
ghost use Rattle.basis.specs.Vocabulary.{event_kind};
ghost use Rattle.sheet.specs.Content.{content};
ghost use Rattle.envelope.specs.Combinations.{effect_of};
ghost use Rattle.envelope.specs.Reported.{with_chosen, Reported};
ghost use Rattle.envelope.specs.Answers.{event_at_hand, strip_after};
ghost use Rattle.envelope.specs.Supplied.{Supplied};
ghost use Rattle.envelope.specs.Layout.{both_halves};
ghost use Rattle.envelope.specs.Leaders.{leader_bit};
ghost use Rattle.envelope.specs.Forms.{BestAmong};

use crate::case::Case;
use crate::combination::{Combination, Extreme};
use crate::layout::laid_out;
use crate::leaders::Contest;
use crate::prepared::Prepared;
use crate::roster::Roster;
use effects::effect::Effect;
use rulebooks::rulebook::{Rulebook, forms_of};
use sheet::plain::Sheet;

// A combination with chosen parts, by its form, its leader's number and its set number, and its effect.
#[derive(Clone, Copy)]
pub struct Candidate<E> {
    pub form: u8,
    pub leader: Option<usize>,
    pub set: u16,
    pub effect: E,
}

// The action number of the leader at a place.
fn leader_number(roster: &Roster, leader: Option<usize>) -> Option<usize>
    requires { IfSome leader (λ q. q < 12) }
    ensures { result ≡ option_map (λ q. slice_index roster.now.numbers q) leader }
{
    leader.map(|place| roster.numbers[place])
}

// The set number of a leader and the set beside it.
fn set_number(leader: Option<usize>, set: u16) -> u16
    requires place { IfSome leader (λ q. q < 12) }
    requires set { set < 4096 }
    ensures { result ≡ set + leader_bit leader }
{
    leader.map_or(set, |place| set + (1 << place))
}

impl<'a, R: Rulebook, E: Effect> Prepared<'a, R, E> {
    // The best combination of a form. The strip is left with the form's contributions.
    fn best_in_form(&self, form: u8, strip: &mut [E]) -> Candidate<E>
        requires one { form < (R.meaning self.now.case.now.book.now).forms }
        requires long { 24 ≤ length strip.old }
        ensures form { result.form ≡ form }
        ensures best { BestAmong E.count E.reaches (content self.now.case.now.sheet.now) (R.meaning self.now.case.now.book.now) (map E.components self.now.case.now.effects.now) (λ f. f ≡ form) (with_chosen E.count E.reaches (content self.now.case.now.sheet.now) (R.meaning self.now.case.now.book.now) (map E.components self.now.case.now.effects.now) form result.leader result.set) }
        ensures effect { E.components result.effect ≡ effect_of E.count (content self.now.case.now.sheet.now) (R.meaning self.now.case.now.book.now) (map E.components self.now.case.now.effects.now) (with_chosen E.count E.reaches (content self.now.case.now.sheet.now) (R.meaning self.now.case.now.book.now) (map E.components self.now.case.now.effects.now) form result.leader result.set) }
        ensures halves { map E.components strip.new ≡ both_halves E.count (map E.components self.now.case.now.effects.now) self.now.masks.now ((R.meaning self.now.case.now.book.now).form form) (content self.now.case.now.sheet.now) ++ drop 24 (map E.components strip.old) }
        ensures rest { drop 24 strip.new ≡ drop 24 strip.old }
    {
        self.fill_strip(strip, form);
        let contest = Contest {
            roster: self.roster,
            leading: &strip[0..12],
            accompanying: &strip[12..24],
            leads: self.case.book.has_leader(form),
            base: self.base(form),
        };
        let peak = contest.best_set();
        Candidate {
            form,
            leader: leader_number(self.roster, peak.leader),
            set: set_number(peak.leader, peak.set),
            effect: peak.effect,
        }
    }

    // The best combination over all forms. The strip is left with the contributions of the last form.
    fn best_combination(&self, strip: &mut [E]) -> Candidate<E>
        requires { 24 ≤ length strip.old }
        ensures best { BestAmong E.count E.reaches (content self.now.case.now.sheet.now) (R.meaning self.now.case.now.book.now) (map E.components self.now.case.now.effects.now) (λ f. f < (R.meaning self.now.case.now.book.now).forms) (with_chosen E.count E.reaches (content self.now.case.now.sheet.now) (R.meaning self.now.case.now.book.now) (map E.components self.now.case.now.effects.now) result.form result.leader result.set) }
        ensures effect { E.components result.effect ≡ effect_of E.count (content self.now.case.now.sheet.now) (R.meaning self.now.case.now.book.now) (map E.components self.now.case.now.effects.now) (with_chosen E.count E.reaches (content self.now.case.now.sheet.now) (R.meaning self.now.case.now.book.now) (map E.components self.now.case.now.effects.now) result.form result.leader result.set) }
        ensures halves { map E.components strip.new ≡ both_halves E.count (map E.components self.now.case.now.effects.now) self.now.masks.now ((R.meaning self.now.case.now.book.now).form ((R.meaning self.now.case.now.book.now).forms - 1)) (content self.now.case.now.sheet.now) ++ drop 24 (map E.components strip.old) }
        ensures rest { drop 24 strip.new ≡ drop 24 strip.old }
    {
        let mut best = self.best_in_form(0, strip);
        for form in 1..forms_of(self.case.book) {
            let other = self.best_in_form(form, strip);
            if !best.effect.at_or_above(other.effect) {
                best = other;
            }
        }
        best
    }
}

// An action's number in a record.
fn in_record(number: Option<usize>) -> Option<u8>
    requires { IfSome number (λ i. i < 32) }
    ensures { result ≡ number }
{
    // Proved to fit, so no TryFrom.
    number.map(|number| number as u8)
}

// The reported combination with its effect. The strip is left with the contributions of the last form.
pub(crate) fn report<'a, R: Rulebook, E: Effect>(
    sheet: &'a Sheet,
    book: &'a R,
    effects: &'a [E],
    strip: &mut [E],
) -> Extreme<E>
    requires supplied { Supplied (content sheet.now) (map E.components effects.now) }
    requires hand { event_at_hand (event_kind (R.meaning book.now).situation) (content sheet.now) ≡ true }
    requires long { 24 ≤ length strip.old }
    ensures reported { Reported E.count E.reaches (content sheet.now) (R.meaning book.now) (map E.components effects.now) result.combination }
    ensures effect { E.components result.effect ≡ effect_of E.count (content sheet.now) (R.meaning book.now) (map E.components effects.now) result.combination }
    ensures filled { map E.components strip.new ≡ strip_after E.count E.reaches (content sheet.now) (R.meaning book.now) (map E.components effects.now) ++ drop 24 (map E.components strip.old) }
    ensures rest { drop 24 strip.new ≡ drop 24 strip.old }
{
    let places = laid_out(sheet);
    let entries = &places[0..sheet.actions().len()];
    let case = Case {
        sheet,
        entries,
        effects,
        book,
    };
    let event = case.chosen_event();
    let masks = case.full_masks(event);
    let roster = case.roster(&masks);
    let prepared = Prepared {
        case: &case,
        masks: &masks,
        roster: &roster,
    };
    let best = prepared.best_combination(strip);
    let combination = Combination {
        form: best.form,
        leader: in_record(best.leader),
        event: in_record(event),
        set: best.set,
        masks: case.masks_in(&masks, best.set),
    };
    Extreme {
        effect: best.effect,
        combination,
    }
}
