// The laws of the page that is appended.
ghost use Rattle.gl_pages.specs.Laws.{PageIsDrawn, PageIsTooDeep};

/// A page that was appended stands for the rendering over the cells, and one that was not, for the depth of its components, has a rendering
/// that nests too deep.
pub fn appended()
    ensures drawn { PageIsDrawn }
    ensures deep { PageIsTooDeep }
{}
