use av_base::Name;

/// The value of a size, as the caller gives it.
#[derive(Debug, Drop)]
pub struct Size {
    pub name: Name,
    pub value: i64,
}
