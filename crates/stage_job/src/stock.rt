//! A stock of boxed callbacks.

ghost use Rattle.std.specs.Prelude.{◌≡◌, map};
ghost use Rattle.stage_job.specs.Boxes.{boxes_of_kind, same_kind};

use pipe_types::topology::Kind;
use stage_callback::Callback;

/// How many boxes of the stock are of this kind.
pub fn boxes_of(stock: &[Box<dyn Callback + Send>], wanted: Kind) -> usize
    ensures { result ≡ boxes_of_kind wanted (map (λ b. kind b) stock.now) }
{
    let mut boxes = 0;
    for callback in stock {
        if is_same(wanted, kind_of(callback)) {
            boxes += 1;
        }
    }
    boxes
}

fn kind_of(callback: &Box<dyn Callback + Send>) -> Kind
    ensures { result ≡ kind callback.now }
{
    callback.kind()
}

fn is_same(wanted: Kind, found: Kind) -> bool
    ensures { result ≡ same_kind wanted found }
{
    wanted == found
}
