ghost use Rattle.std.specs.Prelude.{◌≡◌, ◌↔◌};
ghost use Rattle.value_core.specs.declared.array.ArrayNode.{ArrayNode};
ghost use Rattle.key_core.specs.Key.{key_of};
ghost use Rattle.key_core.specs.OneKey.{HaveOneKey};

/// A law. Two elements have equal keys exactly where they are of one kind and equal, texts where they are equal without case.
pub fn keys_tell_elements_apart()
    ensures { (left right : ArrayNode) → (key_of left ≡ key_of right) ↔ HaveOneKey left right }
{}
