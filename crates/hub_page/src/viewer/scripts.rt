//! `viewer/scripts.html`, as `tools/embed_viewer.py` writes it.

pub(super) const TEXT: &str = "</script>
</aside>
<script>
";
