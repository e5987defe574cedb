//! `viewer/story.html`, as `tools/embed_viewer.py` writes it.

pub(super) const TEXT: &str = "--></div>
<script type=\"text/plain\" id=\"story\">
";
