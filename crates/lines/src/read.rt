// A line from its bytes: the key says the form, and each form has its parts.
ghost use Rattle.std.specs.Prelude.{◌≡◌, ℕ, ◌<◌, ◌≤◌, List, ◌∷◌, ◌++◌, decimal, MatchOption, MatchResult};
ghost use Rattle.lines.specs.Names.{Name};
ghost use Rattle.lines.specs.Told.{Told, Named, charged, held, Reads, meant, placed};
ghost use Rattle.lines.specs.Bodies.{NoCharged, NoNodes, NoPair, NoBody, HasBody};
ghost use Rattle.lines.specs.Texts.{no_form, Begins, NoLine};

use super::cut::{Mark, cut_at, next_line};
use super::key::key_of;
use super::kind::Kind;
use super::line::Line;
use super::name::is_name;
use super::names::Names;
use super::number::read_number;
use book::{Layer, LineCause, Refusal};

// Names, a colon and a number.
fn read_charged(bytes: &[u8], least: usize, most: usize) -> Option<(Names<'_>, u32)>
    requires { 0 < least }
    ensures { MatchOption result (NoCharged least most bytes.now) (λ p. Named least most (held p.0) × (p.1 ≤ 1000000) × (bytes.now ≡ charged (held p.0) p.1)) }
{
    let (front, back) = cut_at(bytes, Mark::Colon)?;
    let names = Names::read_few(front, least, most)?;
    let charge = read_number(back)?;
    Some((names, charge))
}

// Two numbers with a comma between.
fn read_nodes(bytes: &[u8]) -> Option<(usize, usize)>
    ensures { MatchOption result (NoNodes bytes.now) (λ p. (p.0 ≤ 1000000) × (p.1 ≤ 1000000) × (bytes.now ≡ decimal p.0 ++ (44 ∷ decimal p.1))) }
{
    let (front, back) = cut_at(bytes, Mark::Comma)?;
    let left = read_number(front)?;
    let right = read_number(back)?;
    Some((left as usize, right as usize))
}

// Two names with a comma between.
fn read_pair(bytes: &[u8]) -> Option<(&[u8], &[u8])>
    ensures { MatchOption result (NoPair bytes.now) (λ p. Name p.0.now × Name p.1.now × (bytes.now ≡ p.0.now ++ (44 ∷ p.1.now))) }
{
    let (lock, holder) = cut_at(bytes, Mark::Comma)?;
    (is_name(lock) && is_name(holder)).then_some((lock, holder))
}

// What follows a key of this kind, as a line at this place.
fn read_body(kind: Kind, bytes: &[u8], place: usize) -> Option<Line<'_>>
    ensures { MatchOption result (NoBody kind bytes.now) (λ l. HasBody kind bytes.now place l) }
{
    match kind {
        Kind::Locks => Names::read_some(bytes).map(|names| Line::Locks { place, names }),
        Kind::Holders => Names::read_some(bytes).map(|names| Line::Holders { place, names }),
        Kind::Table => Names::read_few(bytes, 1, 4).map(|locks| Line::Table { place, locks }),
        Kind::Row => read_charged(bytes, 1, 4).map(|(holders, charge)| Line::Row {
            place,
            holders,
            charge,
        }),
        Kind::Differ => read_charged(bytes, 2, 2).map(|(locks, charge)| Line::Differ {
            place,
            locks,
            charge,
        }),
        Kind::Same => read_charged(bytes, 2, 2).map(|(locks, charge)| Line::Same {
            place,
            locks,
            charge,
        }),
        Kind::Join => read_nodes(bytes).map(|(left, right)| Line::Join { place, left, right }),
        Kind::Bar => read_pair(bytes).map(|(lock, holder)| Line::Bar {
            place,
            lock,
            holder,
        }),
    }
}

// The refusal of a line that has none of the eight forms, or lacks its end byte.
fn formless(place: usize) -> Refusal
    ensures { result ≡ no_form place }
{
    Refusal {
        layer: Layer::Line {
            place,
            cause: LineCause::NoForm,
        },
    }
}

// The line that the bytes spell, at this place; a refusal where they have none of the eight forms.
pub fn read_line(bytes: &[u8], place: usize) -> Result<Line<'_>, Refusal>
    ensures { MatchResult result (λ l. Reads (meant l) bytes.now × (placed l ≡ place)) (λ e. ((t : Told) → Reads t bytes.now → ⊥) × (e ≡ no_form place)) }
{
    let (kind, rest) = key_of(bytes).ok_or(formless(place))?;
    read_body(kind, rest, place).ok_or(formless(place))
}

// The first line of a text, and what follows its end byte; a refusal where no line begins the text.
pub fn take_line(text: &[u8], place: usize) -> Result<(Line<'_>, &[u8]), Refusal>
    ensures { MatchResult result (λ p. Begins (meant p.0) text.now p.1.now × (placed p.0 ≡ place)) (λ e. NoLine text.now × (e ≡ no_form place)) }
{
    let (bytes, after) = next_line(text).ok_or(formless(place))?;
    let line = read_line(bytes, place)?;
    Ok((line, after))
}
