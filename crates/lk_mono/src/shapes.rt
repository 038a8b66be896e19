//! The shapes that a ground program must have.

ghost use Rattle.lk_ground_types.specs.Shapes.{has_function as function_in, is_base as base, is_flat as flat};
ghost use Rattle.lk_ground_types.specs.Shapes.{is_list as list, is_query_type as query_type};
ghost use Rattle.lk_mono.specs.Flatness.{Answers, AreMarked, IsLeft, IsMarking, IsPass, behind as those_behind};
ghost use Rattle.lk_mono.specs.Flatness.{block_fault as the_block_fault, body_fault as the_body_fault};
ghost use Rattle.lk_mono.specs.Flatness.{calls_marked as some_marked, captured_odd, equality_fault as the_equality_fault, fault_of};
ghost use Rattle.lk_mono.specs.Flatness.{first_fault as the_first_fault, first_marked, first_of, has_odd, is_marked as marked};
ghost use Rattle.lk_mono.specs.Flatness.{is_odd, is_odd_name as odd_name, is_use as use_there, odd_nodes as nodes_odd};
ghost use Rattle.lk_mono.specs.Flatness.{order_fault as the_order_fault, other_calls, some_odd};
ghost use Rattle.lk_mono.specs.Grounded.{AreAllCalled};
ghost use Rattle.lk_mono.specs.Held.{AreHeld};
ghost use Rattle.lk_mono.specs.Instances.{AreDistinct, Body as TheBody, uses_of};
ghost use Rattle.lk_mono.specs.Shapes.{answers_function as answer_has_function};
ghost use Rattle.lk_sound.specs.Nodes.{may_compare as comparable};
ghost use Rattle.lk_mono.specs.declared.body.Source.{Source};
ghost use Rattle.lk_outline.specs.Shown.{shown, shown_kind, shown_site};
ghost use Rattle.lk_outline.specs.Typed.{compared, type_at};
ghost use Rattle.std.specs.List.{list_any};
ghost use Rattle.std.specs.Prelude.{◌≡◌, ◌+◌, [], IfOk, List as TheList, false, map, min, true};

use crate::body::Body;
use crate::error::ShapeKind;
use lk_ast::{List, NoMemory, Span};
use lk_ground_types::{has_function, is_base, is_flat, is_list, is_query_type};
use lk_outline::{Kind, Site};
use lk_types::Ground;
use std::alloc::Global;

/// Whether the type of what a function answers has a function in it.
pub fn answers_function(ty: &Ground) -> bool
    ensures { result ≡ answer_has_function ty.now }
{
    match ty {
        Ground::Fun(_, _, answer) => has_function(answer.get()),
        _ => false,
    }
}

/// Whether the type of the node of that number has a function in it.
fn has_function_at(types: &[Ground], number: usize) -> bool
    ensures { result ≡ function_in (type_at types.now number) }
{
    match types.get(number) {
        Some(ty) => has_function(ty),
        None => false,
    }
}

/// Whether the type of the node of that number is a base.
fn is_base_at(types: &[Ground], number: usize) -> bool
    ensures { result ≡ base (type_at types.now number) }
{
    match types.get(number) {
        Some(ty) => is_base(ty),
        None => false,
    }
}

/// Whether the type of the node of that number is a list.
fn is_list_at(types: &[Ground], number: usize) -> bool
    ensures { result ≡ list (type_at types.now number) }
{
    match types.get(number) {
        Some(ty) => is_list(ty),
        None => false,
    }
}

/// Whether the type of the node of that number is a base or a flat record.
fn is_flat_at(types: &[Ground], number: usize) -> bool
    ensures { result ≡ flat (type_at types.now number) }
{
    match types.get(number) {
        Some(ty) => is_flat(ty),
        None => false,
    }
}

/// Whether the node of that number has a type that queries may have.
fn is_query_type_at(types: &[Ground], number: usize) -> bool
    ensures { result ≡ query_type (type_at types.now number) }
{
    match types.get(number) {
        Some(ty) => is_query_type(ty),
        None => false,
    }
}

/// Whether a query may compare what such a node compares.
fn may_compare(types: &[Ground], kind: &Kind) -> bool
    ensures { result ≡ comparable (compared [] types.now (shown_kind kind.now)) }
{
    match kind {
        Kind::Equality(operand) => !is_list_at(types, *operand),
        Kind::Order(operand) => is_base_at(types, *operand),
        _ => true,
    }
}

/// Whether a node can't stand in a query, an update or a deletion.
fn is_odd_node(types: &[Ground], site: &Site) -> bool
    ensures { result ≡ is_odd types.now (shown_site site.now) }
{
    !(is_query_type_at(types, site.number) && may_compare(types, &site.kind))
}

/// Whether such a node stands in an instance.
fn has_odd_node(body: &Body) -> bool
    ensures { result ≡ has_odd body.now }
{
    let types = body.types.as_slice();
    body.member
        .sites
        .as_slice()
        .iter()
        .any(|site| is_odd_node(types, site))
}

/// Of each instance whether such a node stands in it.
fn own_marks(alloc: Global, bodies: &[Body]) -> Result<Vec<bool>, NoMemory>
    ensures { IfOk result (λ marks. marks.items ≡ map has_odd bodies.now) }
{
    Ok(bodies.iter().map(|body| has_odd_node(body)).collect(alloc)?)
}

/// Whether the one at that place is marked.
fn is_marked(marks: &[bool], place: usize) -> bool
    ensures { result ≡ marked marks.now place }
{
    place < marks.len() && marks[place]
}

/// Whether one of those at these places is marked.
fn calls_marked(marks: &[bool], places: &[u32]) -> bool
    ensures { result ≡ some_marked marks.now places.now }
{
    places.iter().any(|place| is_marked(marks, *place as usize))
}

/// Marks the one at that place, which has these calls, if it calls a marked one. Whether it wasn't marked before.
fn mark_caller(marks: &mut Vec<bool>, places: &[u32], place: usize) -> bool
    ensures left { result ≡ false → IsLeft places.now place marks.old.items marks.new.items }
    ensures marking { result ≡ true → IsMarking places.now place marks.old.items marks.new.items }
{
    if place >= marks.len() || marks[place] || !calls_marked(marks, places) {
        return false;
    }
    marks[place] = true;
    true
}

/// Marks all that call marked ones, the last first. Whether one wasn't marked before.
fn mark_callers(marks: &mut Vec<bool>, calls: &[List<u32>]) -> bool
    ensures { IsPass calls.now 0 marks.old.items marks.new.items result }
{
    let mut changed = false;
    for place in (0..calls.len()).rev() {
        changed |= mark_caller(marks, calls[place].as_slice(), place);
    }
    changed
}

/// Of each helper whether it has a node in it that can't stand in a query, an update or a deletion, or calls a helper that has
/// one, and so on.
fn odd_helpers(alloc: Global, helpers: &[Body], calls: &[List<u32>]) -> Result<Vec<bool>, NoMemory>
    ensures { IfOk result (λ marks. AreMarked (map has_odd helpers.now) calls.now marks.items) }
{
    let mut marks = own_marks(alloc, helpers)?;
    let mut changed = true;
    'passes: while changed {
        changed = mark_callers(&mut marks, calls);
    }
    Ok(marks)
}

/// Whether a node uses a function.
fn is_use(kind: &Kind) -> bool
    ensures { result ≡ use_there (shown_kind kind.now) }
{
    match kind {
        Kind::Function(_) | Kind::Call(..) => true,
        _ => false,
    }
}

/// Whether a node calls a marked helper, if the first of these calls is its own when it is a use.
fn is_first_marked(marks: &[bool], is_use: bool, calls: &[u32]) -> bool
    ensures { result ≡ first_marked marks.now is_use calls.now }
{
    match calls {
        [place, ..] => is_use && is_marked(marks, *place as usize),
        [] => false,
    }
}

/// The calls behind that.
fn calls_behind(is_use: bool, calls: &[u32]) -> &[u32]
    ensures { result.now ≡ other_calls is_use calls.now }
{
    match calls {
        [_, others @ ..] if is_use => others,
        _ => calls,
    }
}

/// Of each node whether it can't stand in a query, an update or a deletion, by itself or by what it calls.
fn odd_nodes(
    alloc: Global,
    types: &[Ground],
    marks: &[bool],
    sites: &[Site],
    calls: &[u32],
) -> Result<Vec<bool>, NoMemory>
    ensures { IfOk result (λ odd. odd.items ≡ nodes_odd types.now marks.now (shown sites.now) calls.now) }
{
    let mut odd = Vec::new(alloc);
    let mut left = calls;
    for site in sites {
        let used = is_use(&site.kind);
        odd.push(is_odd_node(types, site) || is_first_marked(marks, used, left))?;
        left = calls_behind(used, left);
    }
    Ok(odd)
}

/// Where the nodes behind that one, so many, begin among as many as there are, and where they end.
fn range_behind(size: usize, number: usize, nodes: usize) -> (usize, usize)
    ensures start { result.0 ≡ min (1 + number) size }
    ensures end { result.1 ≡ min (1 + (number + nodes)) size }
{
    let start = number.saturating_add(1);
    (start.min(size), start.saturating_add(nodes).min(size))
}

/// What is said of the nodes behind that one, so many.
fn marks_behind(marks: &[bool], number: usize, nodes: usize) -> &[bool]
    ensures { result.now ≡ those_behind number nodes marks.now }
{
    let (start, end) = range_behind(marks.len(), number, nodes);
    &marks[start..end]
}

/// The nodes behind that one, so many.
fn sites_behind<'s, 'p>(sites: &'s [Site<'p>], number: usize, nodes: usize) -> &'s [Site<'p>]
    ensures { result.now ≡ those_behind number nodes sites.now }
{
    let (start, end) = range_behind(sites.len(), number, nodes);
    &sites[start..end]
}

/// Whether one of the nodes behind that one, so many, can't stand in a query, an update or a deletion.
fn has_odd_behind(odd: &[bool], number: usize, nodes: usize) -> bool
    ensures { result ≡ some_odd odd.now number nodes }
{
    marks_behind(odd, number, nodes).iter().any(|odd| *odd)
}

/// Whether a node in such a block is a local name that is bound outside of it, and neither a base nor a flat record.
fn is_odd_name(types: &[Ground], number: usize, site: &Site) -> bool
    ensures { result ≡ odd_name types.now number (shown_site site.now) (shown_kind site.now.kind) }
{
    match site.kind {
        Kind::Name(binder) => binder <= number && !is_flat_at(types, site.number),
        _ => false,
    }
}

/// Whether there is such a name among these nodes.
fn has_odd_name(types: &[Ground], number: usize, sites: &[Site]) -> bool
    ensures { result ≡ list_any (λ site. odd_name types.now number (shown_site site) (shown_kind site.kind)) sites.now }
{
    sites.iter().any(|site| is_odd_name(types, number, site))
}

/// Whether there is such a name among the nodes behind that one, so many.
fn captures_odd(types: &[Ground], sites: &[Site], number: usize, nodes: usize) -> bool
    ensures { result ≡ captured_odd types.now (shown sites.now) number nodes }
{
    has_odd_name(types, number, sites_behind(sites, number, nodes))
}

/// What such a block is refused for.
fn block_fault(is_odd: bool, captures: bool) -> Option<ShapeKind>
    ensures { result ≡ the_block_fault is_odd captures }
{
    if is_odd {
        Some(ShapeKind::QueryNotFlat)
    } else if captures {
        Some(ShapeKind::QueryCapture)
    } else {
        None
    }
}

/// What a node is refused for.
fn fault(types: &[Ground], sites: &[Site], odd: &[bool], site: &Site) -> Option<ShapeKind>
    ensures { result ≡ fault_of types.now (shown sites.now) odd.now (shown_site site.now) (shown_kind site.now.kind) }
{
    let number = site.number;
    match site.kind {
        Kind::Equality(operand) => equality_fault(types, operand),
        Kind::Order(operand) => order_fault(types, operand),
        Kind::Query(nodes) => block_fault(
            is_odd_node(types, site) || has_odd_behind(odd, number, nodes),
            captures_odd(types, sites, number, nodes),
        ),
        Kind::Change(nodes) => block_fault(
            has_odd_behind(odd, number, nodes),
            captures_odd(types, sites, number, nodes),
        ),
        _ => None,
    }
}

/// What `==` or `<>` is refused for, if its left operand is that node.
fn equality_fault(types: &[Ground], operand: usize) -> Option<ShapeKind>
    ensures { result ≡ the_equality_fault types.now operand }
{
    if has_function_at(types, operand) {
        Some(ShapeKind::EqualityAtFunction)
    } else {
        None
    }
}

/// What an order is refused for, if its left operand is that node.
fn order_fault(types: &[Ground], operand: usize) -> Option<ShapeKind>
    ensures { result ≡ the_order_fault types.now operand }
{
    if is_base_at(types, operand) {
        None
    } else {
        Some(ShapeKind::OrderAtNonBase)
    }
}

/// The first of the nodes that is refused, and for what.
fn first_fault(types: &[Ground], sites: &[Site], odd: &[bool]) -> Option<(ShapeKind, Span)>
    ensures { result ≡ the_first_fault types.now (shown sites.now) odd.now (shown sites.now) }
{
    for site in sites {
        if let Some(kind) = fault(types, sites, odd, site) {
            return Some((kind, site.span));
        }
    }
    None
}

/// The first node of an instance with these calls that is refused, and for what.
fn body_fault(
    alloc: Global,
    marks: &[bool],
    body: &Body,
    calls: &[u32],
) -> Result<Option<(ShapeKind, Span)>, NoMemory>
    ensures { IfOk result (λ found. found ≡ the_body_fault marks.now body.now calls.now) }
{
    let types = body.types.as_slice();
    let sites = body.member.sites.as_slice();
    let odd = odd_nodes(alloc, types, marks, sites, calls)?;
    Ok(first_fault(types, sites, &odd))
}

/// The first node of instances with these calls that is refused, and for what.
fn first_in(
    alloc: Global,
    marks: &[bool],
    bodies: &[Body],
    calls: &[List<u32>],
) -> Result<Option<(ShapeKind, Span)>, NoMemory>
    ensures { IfOk result (λ found. found ≡ first_of marks.now bodies.now calls.now) }
{
    for (body, places) in bodies.iter().zip(calls.iter()) {
        if let Some(found) = body_fault(alloc, marks, body, places.as_slice())? {
            return Ok(Some(found));
        }
    }
    Ok(None)
}

/// The first node of the instances that is refused for its shape, and for what. `main_calls` and `helper_calls` have, for each
/// use in an instance, in text order, the place of the instance that it is of: among the helpers for a use inside of a query,
/// an update or a deletion, and for all uses of helpers.
pub fn first_refused(
    alloc: Global,
    mains: &[Body],
    main_calls: &[List<u32>],
    helpers: &[Body],
    helper_calls: &[List<u32>],
) -> Result<Option<(ShapeKind, Span)>, NoMemory>
    ensures { IfOk result (λ found. (source : Source) (ms hs : TheList TheBody) → AreHeld source mains.now ms → AreHeld source helpers.now hs
        → AreAllCalled (uses_of ms) (uses_of hs) false ms main_calls.now → AreAllCalled (uses_of ms) (uses_of hs) true hs helper_calls.now → AreDistinct (uses_of hs)
        → Answers hs ms found) }
{
    let marks = odd_helpers(alloc, helpers, helper_calls)?;
    first_in(alloc, &marks, mains, main_calls)
}
