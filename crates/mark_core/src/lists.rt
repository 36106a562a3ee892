ghost use Rattle.std.specs.Prelude.{◌≡◌, slice_get, slice_set};
ghost use Rattle.std.specs.Option.{option_map_or};

use own_items::Items;

/// Puts a value in place of another, and gives that.
pub(crate) fn put<T: Copy>(items: &mut Items<T>, index: usize, value: T) -> Option<T>
    ensures set { items.new ≡ slice_set items.old index value }
    ensures was { result ≡ slice_get items.old index }
{
    match items.get_mut(index) {
        None => None,
        Some(item) => {
            let was = *item;
            *item = value;
            Some(was)
        }
    }
}

/// Puts a value back that was taken out, if one was.
pub(crate) fn put_back<T: Copy>(items: &mut Items<T>, index: usize, was: Option<T>)
    ensures { items.new ≡ option_map_or (slice_set items.old index) was items.old }
{
    if let Some(value) = was {
        put(items, index, value);
    }
}
