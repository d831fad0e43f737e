//! Names of sections and of their items, for messages (Core 3.0, Modules).
ghost use Rattle.std.specs.Prelude.{◌≤◌, ◌<◌, IfSome, IfNone};

/// The names of a section and of its items.
#[derive(Clone, Copy, Debug, PartialEq, Eq)]
pub struct SectionNames {
    /// Name of the section.
    pub section: &'static str,
    /// Name of an item of the section.
    pub item: &'static str,
}

/// Returns the names of the section with this id. `None` means that the id is unknown.
pub fn section_names(id: u8) -> Option<SectionNames>
    ensures known { IfSome result (λ _. id ≤ 13) }
    ensures unknown { IfNone result (13 < id) }
{
    let (section, item) = match id {
        0 => ("custom", "byte"),
        1 => ("type", "type"),
        2 => ("import", "import"),
        3 => ("function", "function"),
        4 => ("table", "table"),
        5 => ("memory", "memory"),
        6 => ("global", "global"),
        7 => ("export", "export"),
        8 => ("start", "function"),
        9 => ("element", "segment"),
        10 => ("code", "function"),
        11 => ("data", "segment"),
        12 => ("data count", "count"),
        13 => ("tag", "tag"),
        _ => return None,
    };
    Some(SectionNames { section, item })
}
