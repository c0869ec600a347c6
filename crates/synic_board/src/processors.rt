// Lists with an element for each processor.
ghost use Rattle.std.specs.Prelude.{◌≡◌, [], length, IfOk};
ghost use Rattle.std.specs.List.{AppendsResults};

use std::alloc::{AllocError, Global};

/// A list with the result of `new` for each processor.
pub(crate) fn vec_per_processor<T: Drop, F: FnMut() -> T>(
    alloc: Global,
    processors: u8,
    new: F,
) -> Result<Vec<T>, AllocError>
    requires { F.IsAlwaysCallable new }
    ensures made { IfOk result (λ list. AppendsResults F.step [] list.items new) }
    ensures each { IfOk result (λ list. length list.items ≡ processors) }
{
    let mut list = Vec::new(alloc);
    list.resize_with(processors as usize, new)?;
    Ok(list)
}
