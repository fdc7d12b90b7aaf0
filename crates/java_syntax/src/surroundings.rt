/// The modifier words of a declaration so far (JLS 8.1.1, 8.3.1, 8.4.3, 8.8.3).
#[derive(Copy, Clone)]
pub struct Modifiers {
    /// `public`, `protected` or `private` stands there.
    pub has_access: bool,
    /// `private` stands there.
    pub is_private: bool,
    /// `static` stands there.
    pub is_static: bool,
    /// `final` stands there.
    pub is_final: bool,
    /// `abstract` stands there.
    pub is_abstract: bool,
}

/// Where a declaration stands.
#[derive(Copy, Clone)]
pub enum Owner {
    /// On the file's level: it declares a class or an interface.
    File,
    /// In a class.
    Class,
    /// In an interface.
    Interface,
}
