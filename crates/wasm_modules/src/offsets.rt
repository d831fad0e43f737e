//! Names of custom sections that keep offsets into the module. Once bytes have moved, these offsets are stale.
ghost use Rattle.std.specs.Prelude.{◌≡◌, true, false};
ghost use Rattle.wasm_modules.specs.Offsets.{BeginsWith, IsObjectName, IsOffsetName};

/// Checks whether sections of this name keep offsets: relocations and symbols of a linker, debug information (DWARF) or a
/// source map, here or in another file, and annotations of instructions.
pub fn is_offset_name(name: &str) -> bool
    ensures yes { result ≡ true → IsOffsetName name.now }
    ensures no { result ≡ false → IsOffsetName name.now → ⊥ }
{
    is_object_name(name)
        || begins_with(name, ".debug_")
        || name == "external_debug_info"
        || name == "sourceMappingURL"
        || begins_with(name, "metadata.code.")
}

/// Checks whether sections of this name are those of object files: symbols and relocations of a linker.
pub fn is_object_name(name: &str) -> bool
    ensures yes { result ≡ true → IsObjectName name.now }
    ensures no { result ≡ false → IsObjectName name.now → ⊥ }
{
    name == "linking" || begins_with(name, "reloc.")
}

/// Checks whether `name` begins with `beginning`.
fn begins_with(name: &str, beginning: &str) -> bool
    ensures yes { result ≡ true → BeginsWith beginning.now name.now }
    ensures no { result ≡ false → BeginsWith beginning.now name.now → ⊥ }
{
    name.as_bytes().strip_prefix(beginning.as_bytes()).is_some()
}
