// The calls on a case: an order, a bar, a lift, and the four questions.
use crate::Question;
use aggregation::Join;

#[derive(Clone, Copy)]
pub enum Call<'a> {
    Order(&'a [Join]),
    // Lock and holder stay two numbers: the public calls take two, and a pair would only be taken apart again.
    Bar(usize, usize),
    Lift(usize, usize),
    Ask(Question),
}
