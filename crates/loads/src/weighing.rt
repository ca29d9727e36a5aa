// Loads compared: the highest grade of which the two hold different numbers decides.
ghost use Rattle.std.specs.Prelude.{◌≡◌, ℕ, ◌+◌, ◌^◌, ◌<◌, MatchBool, MatchResult};
ghost use Rattle.std.specs.Ordering.{nat_cmp};
ghost use Rattle.loads.specs.Laws.{Weighs, as_weight, Replaced, Exchange, NoMember};
ghost use Rattle.loads.specs.Loads.{NotHeavier};
ghost use Rattle.loads.specs.Weighing.{below, seen, times, Raised, Top, HigherOf, Peak, Decided, distinct, above};

use crate::grades::Grade;
use std::cmp::Ordering;

// What the left load is against the right.
#[derive(Clone, Copy, PartialEq, Eq, Debug)]
pub enum Weight {
    Lighter,
    Equal,
    Heavier,
}

impl From<Ordering> for Weight {
    ghost from_gives = { λ order w. w ≡ as_weight order };

    fn from(order: Ordering) -> Weight {
        match order {
            Ordering::Less => Weight::Lighter,
            Ordering::Equal => Weight::Equal,
            Ordering::Greater => Weight::Heavier,
        }
    }
}

// A grade of a load, with how many members have it.
#[derive(Drop)]
struct Held<'a, G> {
    grade: &'a G,
    count: usize,
}

// A grade, with how many members of either load have it.
#[derive(Drop)]
pub struct Tally<'a, G> {
    pub grade: &'a G,
    pub left: usize,
    pub right: usize,
}

// Two that differ in the side: one with a flag for it would be read with less ease.
impl<'a, G> Held<'a, G> {
    // The grade as one that the left load alone has.
    fn on_left(self) -> Tally<'a, G>
        ensures grade { result.grade.now ≡ self.entry.grade.now }
        ensures left { result.left ≡ self.entry.count }
        ensures right { result.right ≡ 0 }
    {
        Tally {
            grade: self.grade,
            left: self.count,
            right: 0,
        }
    }

    // The grade as one that the right load alone has.
    fn on_right(self) -> Tally<'a, G>
        ensures grade { result.grade.now ≡ self.entry.grade.now }
        ensures left { result.left ≡ 0 }
        ensures right { result.right ≡ self.entry.count }
    {
        Tally {
            grade: self.grade,
            left: 0,
            right: self.count,
        }
    }
}

fn is_below<G: Grade>(x: &G, limit: Option<&G>) -> bool
    ensures { result ≡ below G.cmp (seen limit.entry) x.now }
{
    limit.is_none_or(|top| x.compare(top).is_lt())
}

// The top so far with one more member `x`: a higher one takes its place.
fn raised<'a, G: Grade>(top: Option<Held<'a, G>>, x: &'a G) -> Held<'a, G>
    requires { times (top) < 2 ^ 64 }
    ensures { Raised G.cmp top.entry x.now result.grade.now result.count }
{
    let Some(held) = top else {
        return Held { grade: x, count: 1 };
    };
    match x.compare(held.grade) {
        Ordering::Less => held,
        Ordering::Equal => Held {
            count: held.count + 1,
            ..held
        },
        Ordering::Greater => Held { grade: x, count: 1 },
    }
}

// The highest grade below the limit that a member of the load has.
fn top_below<'a, G: Grade>(limit: Option<&G>, load: &'a [G]) -> Option<Held<'a, G>>
    ensures { Top G.cmp (seen limit.entry) load.now result }
{
    let mut top: Option<Held<'a, G>> = None;
    // No plainer as a `fold`: its closure would have to require what `raised` does.
    for x in load {
        if is_below(x, limit) {
            top = Some(raised(top, x));
        }
    }
    top
}

// The higher of two tops of two loads, with how many members of either load have it.
fn higher_of<'a, G: Grade>(left: Held<'a, G>, right: Held<'a, G>) -> Tally<'a, G>
    ensures { HigherOf G.cmp left.entry right.entry result }
{
    match left.grade.compare(right.grade) {
        Ordering::Less => right.on_right(),
        Ordering::Equal => Tally {
            grade: left.grade,
            left: left.count,
            right: right.count,
        },
        Ordering::Greater => left.on_left(),
    }
}

// The highest grade below the limit that either load holds: one pass over each.
fn peak_below<'a, G: Grade>(
    limit: Option<&G>,
    left: &'a [G],
    right: &'a [G],
) -> Option<Tally<'a, G>>
    ensures { Peak G.cmp (seen limit.entry) left.now right.now result }
{
    match (top_below(limit, left), top_below(limit, right)) {
        (None, None) => None,
        (Some(l), None) => Some(l.on_left()),
        (None, Some(r)) => Some(r.on_right()),
        (Some(l), Some(r)) => Some(higher_of(l, r)),
    }
}

impl<G> Tally<'_, G> {
    // What the left load is against the right, where no higher grade decides: the load that holds fewer is the lighter.
    fn weight(&self) -> Weight
        ensures { result ≡ as_weight (nat_cmp self.now.left self.now.right) }
    {
        self.left.cmp(&self.right).into()
    }
}

// How two loads compare, and where that was decided.
#[derive(Drop)]
pub struct Comparison<'a, G> {
    // what the left load is against the right
    pub weight: Weight,
    // how many different grades, all above the deciding one, both hold in the same number
    pub agreed: usize,
    // the highest grade of which the two hold different numbers; none where they are equal
    pub decided: Option<Tally<'a, G>>,
}

// Goes down the grades of two loads from the highest, with one pass over each load for a grade, to the first of which they
// hold different numbers: `agreed` + 1 passes in all.
pub fn compare_loads<'a, G: Grade>(left: &'a [G], right: &'a [G]) -> Comparison<'a, G>
    ensures weight { Weighs G.cmp left.now right.now result.weight }
    ensures decided { Decided G.cmp left.now right.now result.decided }
    ensures agreed { result.agreed ≡ distinct G.cmp (above G.cmp result.decided) left.now }
{
    let mut limit: Option<&'a G> = None;
    let mut agreed: usize = 0;
    while let Some(tally) = peak_below(limit, left, right) {
        if tally.left != tally.right {
            return Comparison {
                weight: tally.weight(),
                agreed,
                decided: Some(tally),
            };
        }
        limit = Some(tally.grade);
        agreed += 1;
    }
    Comparison {
        weight: Weight::Equal,
        agreed,
        decided: None,
    }
}

// What the left load is against the right: compared at the highest grade of which the two hold different numbers, the one
// that holds fewer is the lighter; without such a grade they are equal.
pub fn weigh<G: Grade>(left: &[G], right: &[G]) -> Weight
    ensures { Weighs G.cmp left.now right.now result }
{
    compare_loads(left, right).weight
}

// Whether the left load is lighter than the right or equal to it. Here and above the two loads are two parameters, as those of `cmp` are.
pub fn not_heavier<G: Grade>(left: &[G], right: &[G]) -> bool
    ensures { MatchBool result (NotHeavier G.cmp left.now right.now) (NotHeavier G.cmp left.now right.now → ⊥) }
{
    weigh(left, right) != Weight::Heavier
}

// What a load is against what it was before one member `old` was replaced by `new`: only the two grades matter.
fn weigh_replaced<G: Grade>(new: &G, old: &G) -> Weight
    ensures { Replaced G.cmp new.now old.now result }
{
    new.compare(old).into()
}

// The member that was taken out of a load, and what the load now is against what it was.
#[derive(Drop)]
pub struct Exchanged<G> {
    pub old: G,
    pub weight: Weight,
}

// Puts `new` in the place of the member at `at`. The new grade comes back where there is no such member.
pub fn exchange<G: Grade>(load: &mut [G], at: usize, new: G) -> Result<Exchanged<G>, G>
    ensures { MatchResult result (λ x. Exchange G.cmp load.old at new load.new x.old x.weight) (λ back. NoMember load.old at new load.new back) }
{
    // Not by `get_mut`: after a slice's a proof knows the length, and no element.
    if at >= load.len() {
        return Err(new);
    }
    let member = &mut load[at];
    let old = std::mem::replace(member, new);
    let weight = weigh_replaced(member, &old);
    Ok(Exchanged { old, weight })
}
