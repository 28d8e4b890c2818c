//! The styles of the SVG.

ghost use Rattle.std.specs.Prelude.{◌≡◌};
ghost use Rattle.stream_view.specs.Vocabulary.{style_bytes};

/// The rules (CSS) for light and dark, and the pattern of stripes for failed steps. The colours of
/// the kinds can be told apart with each form of colour blindness, and in print.
pub fn style() -> &'static str
    ensures { result.now ≡ style_bytes }
{
    "\n<style>\
    text{font:12px ui-monospace,SFMono-Regular,Menlo,Consolas,'DejaVu Sans Mono',monospace}\
    .head{font:600 16px system-ui,'Segoe UI',Helvetica,Arial,'DejaVu Sans',sans-serif}\
    .sub{font:13px system-ui,'Segoe UI',Helvetica,Arial,'DejaVu Sans',sans-serif}\
    .small{font-size:11px}.end{text-anchor:end}.open{fill-opacity:.35}.grid{stroke-width:1}\
    .inner{fill-opacity:.45}.edge{fill:none;stroke-width:1.5}.ground{fill:#ffffff}\
    .band{fill:#f3f5f8}.ink{fill:#1b1f24}.soft{fill:#5b6570}.fail{fill:#c81d0a}.grid{stroke:#d5dae0}\
    .level{fill:#9aa6b2}.stripe{stroke:#c81d0a}.edge{stroke:#c81d0a}.inner{fill:#ffffff}\
    .create{fill:#217a63}.update{fill:#f3bb16}.delete{fill:#5a2f7c}.read{fill:#4caff1}\
    .refresh{fill:#b7bcbf}.other{fill:#8a8f98}@media (prefers-color-scheme:dark){\
    .ground{fill:#0e1217}.band{fill:#161b22}.ink{fill:#e4e9ef}.soft{fill:#98a3af}.fail{fill:#ff5a50}\
    .grid{stroke:#2b333d}.level{fill:#5a6673}.stripe{stroke:#ff5a50}.edge{stroke:#ff5a50}\
    .inner{fill:#0e1217}.create{fill:#39ce86}.update{fill:#f5d947}.delete{fill:#a24dc2}\
    .read{fill:#bad2e8}.refresh{fill:#5f6a74}.other{fill:#8a8f98}}.mid{text-anchor:middle}\
    </style>\n<defs><pattern id=\"stripes\" width=\"6\" height=\"6\" \
    patternUnits=\"userSpaceOnUse\" patternTransform=\"rotate(45)\">\
    <path d=\"M0 0V6\" class=\"stripe\" stroke-width=\"6\"/></pattern></defs>\n<rect width=\""
}
