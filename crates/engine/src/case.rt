// A case: a book with bars, and the order in force, which is one for the book. The book is asked for its shape when the
// case is made, and for charges at each question.
ghost use Rattle.order.specs.Shapes.{shape_of};
ghost use Rattle.order.specs.Plans.{Standing};

use crate::framed::Framed;
use book::{Barred, Book};
use order::Plan;

#[derive(Drop)]
pub struct Case<B: Book> {
    book: Barred<Framed<B>>,
    plan: Option<Plan>,
    ghost stands: { ∥ Standing (shape_of (B.meaning book.book.book)) plan ∥₁ },
}

mod acts;
mod asks;
mod reads;
